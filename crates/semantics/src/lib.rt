//! Atoms, sets of atoms, plain rules, and the theory of weighted rules.

#![tactic(auto)]

pub mod atom;
pub mod atoms;
pub mod broken;
mod numbering;
pub mod rule;
pub mod set;
pub mod theory;
