// No code: the theorems over several layers. What a built tree promises its walk (specs/, proofs/), the probe table, and that every call's
// answer is fixed.
#![tactic(auto)]
