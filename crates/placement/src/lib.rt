//! Placement: from a checked set, or a set file, to a plan.
#![tactic(auto)]

mod counted;
mod cursors;
mod files;
mod places;
mod seating;

pub use files::place_file;
pub use places::place;
