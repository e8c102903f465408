//! Rule bases worked out in tests, on points, words and pairs.

#![tactic(auto)]

#[cfg(test)]
mod tests;
