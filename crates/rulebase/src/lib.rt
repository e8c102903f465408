//! The rule base: a possibilistic normal logic program held in the caller's two tables, with a cursor over its stable models.

#![tactic(auto)]

pub mod base;
pub mod call;
mod changes;
pub mod conflicting;
pub mod cursor;
mod cutting;
mod fetching;
mod following;
pub mod grades;
pub mod holding;
pub mod opening;
mod performing;
mod reading;
pub mod rule;
pub mod running;
