//! The plain book: what every list of calls on a roster answers, and the laws of all such lists.
#![tactic(auto)]

pub mod laws;
