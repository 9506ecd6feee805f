//! Worked examples, as tests over all layers: what a planner brings, and what each layer answers.
#![tactic(auto)]

#[cfg(test)]
mod agendas;
#[cfg(test)]
mod asked;
#[cfg(test)]
mod costs;
#[cfg(test)]
mod figures;
#[cfg(test)]
mod files;
#[cfg(test)]
mod lists;
#[cfg(test)]
mod piles;
#[cfg(test)]
mod plans;
#[cfg(test)]
mod printouts;
#[cfg(test)]
mod questions;
#[cfg(test)]
mod queues;
#[cfg(test)]
mod rosters;
#[cfg(test)]
mod seasons;
#[cfg(test)]
mod texts;
