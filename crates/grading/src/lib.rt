//! Grades of readings on any scale, over slices of rows.

#![tactic(auto)]

pub mod conflict;
mod objection;
pub mod reading;
pub mod rows;
pub mod rules;
mod step;
