// Laws only: tgamma's sign is the one that lgamma_r reports, and in f32 tgammaf's the one that lgammaf_r reports. Nothing here runs.
#![tactic(auto)]
