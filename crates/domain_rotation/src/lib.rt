// No code. Promised: what holds on the stated domain of the rotation of two days and of the stars under it, as theorems over the rules of
// the crates above.
#![tactic(auto)]
