//! The kinds of things that wait to be served, with their orders.
//! Each order has its own impl: an impl for any trait of keys would still need the keys of each kind twice, as code and as numbers.
#![tactic(auto)]

pub mod entries;
pub mod runs;
