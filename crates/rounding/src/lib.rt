// The laws of rounded arithmetic are in proofs/; nothing here runs.
#![tactic(auto)]
