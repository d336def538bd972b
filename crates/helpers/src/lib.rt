// The helpers that the ported modules call (section 3), under the crate's own names. Promised: the paper's operations on every double; 1
// is refused, and 2 by the century.
#![tactic(auto)]

pub mod angle; // degrees, radians and seconds; folding into one turn
pub mod time; // the century of a day
pub mod circle; // degrees on a circle that is read
