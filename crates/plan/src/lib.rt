//! A plan: which worker runs which model, whole or in two pieces.
#![tactic(auto)]

pub mod groups;
pub mod pieces;
pub mod plans;
