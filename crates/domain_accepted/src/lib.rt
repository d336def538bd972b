// No code. Promised: what is known of accepted arguments and of answers, as theorems over the rules of the crates above.
#![tactic(auto)]
