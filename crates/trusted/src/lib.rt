// No code: lists are accepted exactly if they hold a tree as rule G2 asks of one (specs/, proofs/).
#![tactic(auto)]
