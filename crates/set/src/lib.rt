//! A planner's figures, and the set that they make once they are checked.
#![tactic(auto)]

pub mod figures;
pub mod models;
pub mod sets;
pub mod sizes;
