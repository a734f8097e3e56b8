// Laws only: what a feed does with a stream that comes in pieces, over any table of kinds. Nothing here runs.
#![tactic(auto)]
