//! Scales of grades: the order of the grades, the rows that stand for them in tables, and their texts.

#![tactic(auto)]

mod numbered;
pub mod pair;
pub mod point;
mod points;
pub mod refusal;
pub mod scale;
mod spelled;
#[cfg(test)]
mod tests;
pub mod text;
pub mod word;
pub mod written;
