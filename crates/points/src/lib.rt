// Laws only: the points that the scope names, in one table. Nothing here runs.
#![tactic(auto)]
