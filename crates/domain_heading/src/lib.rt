// No code. Promised: a heading lies from 0 to below 360, in the half and the quarter of the circle where the star stands, and mirrors as
// condition 3 has it, as theorems over the rules of `heading` and over every answer that meets its promises.
#![tactic(auto)]
