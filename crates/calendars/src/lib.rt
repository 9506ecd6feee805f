//! Calendars that are read off tables, and calendars that are made of others.
#![tactic(auto)]

pub mod closure;
pub mod delay;
pub mod list;
pub mod phase;
mod table;
