//! The sample.
use crate::name::Name::{Buoy, Echo, Track, Vessel};
use crate::rule::NamedRule;
use grading::rules::WeightedRules;
use scale::point::Point;
use semantics::rule::PlainRule;
use std::array;

/// The rules of the sample.
pub const RULES: [NamedRule; 4] = [
    NamedRule {
        points: 100,
        head: Echo,
        pos: &[],
        neg: &[],
    },
    NamedRule {
        points: 80,
        head: Buoy,
        pos: &[Echo],
        neg: &[Vessel],
    },
    NamedRule {
        points: 50,
        head: Vessel,
        pos: &[Echo],
        neg: &[Buoy],
    },
    NamedRule {
        points: 30,
        head: Track,
        pos: &[Vessel],
        neg: &[],
    },
];

/// The rules of the sample, and the rows of their grades at the rules' places: two tables, as the grading takes them.
#[derive(Clone, Copy)]
pub struct Sample {
    pub rules: [PlainRule; 4],
    pub rows: [u8; 4],
}

impl Sample {
    /// The rules in the order in which they are written.
    pub fn new() -> Sample {
        Sample {
            rules: array::from_fn(|place| RULES[place].plain(place)),
            rows: RULES.map(|rule| rule.points),
        }
    }

    /// The rules with the rows of their grades.
    pub fn weighted(&self) -> WeightedRules<'_, '_, Point> {
        WeightedRules {
            rules: &self.rules,
            rows: &self.rows,
        }
    }
}
