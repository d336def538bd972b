// The C boundary: every entry point under the name brundelak_ and its own. Each answers its status, 0 or the refusal number, and writes
// each float of its answer through a reference of its own; a refused call leaves what is lent unchanged. It adds no rule.
// What a caller sees is said in the rules of `brundelak_handed` and in specs/rules; include/brundelak.h declares it all.
#![tactic(auto)]

pub mod functions; // section 2
pub mod angles; // section 3
pub mod frames; // changes of frame
pub mod reduction; // precession, nutation, aberration, the chain
pub mod time; // sidereal time
pub mod observer; // parallax; rise, culmination and set
pub mod refraction; // refraction at the sight
pub mod sights; // the heading of a star and of a mark, and their mean
pub mod stored; // the stored list and the batch
pub mod published; // the published edition of what has two
pub mod radio; // lists over the radio link
pub mod edits; // the stored list edited where it stands
pub mod residuals; // the residual sheet of a night
pub mod widths; // lists of the record of before
pub mod version; // which version the archive is of
