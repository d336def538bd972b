// What holds on the stated domain, as theorems: answers are finite, inner angles stay where the fold is true, and which refusals can
// come. The calls here carry some of them from rules to code.
#![tactic(auto)]

pub mod angle;
