//! Search for sets of atoms: the admissible sets of plain rules, the stable ones among them, the least objected to.

#![tactic(auto)]

pub mod bounds;
pub mod close;
mod force;
mod least;
pub mod listing;
mod narrow;
pub mod objection;
pub mod rules_at;
pub mod stable_sets;
