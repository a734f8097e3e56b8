// The ranges of pow and of its parts are laws alone, in proofs/.
#![tactic(auto)]
