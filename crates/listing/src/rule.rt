//! Rules over named atoms.
use crate::name::Name;
use semantics::atom::Atom;
use semantics::rule::PlainRule;
use semantics::set::{AtomSet, is_disjoint, with};
use std::fmt;

/// A rule with its grade in points: the head follows where all of `pos` hold and none of `neg` does.
#[derive(Clone, Copy)]
pub struct NamedRule {
    pub points: u8,
    pub head: Name,
    pub pos: &'static [Name],
    pub neg: &'static [Name],
}

impl NamedRule {
    /// The same rule over sets of atoms, its grade in the row at `place`.
    pub fn plain(&self, place: usize) -> PlainRule {
        PlainRule::new(self.head.into(), set_of(self.pos), set_of(self.neg), place)
    }

    /// What is left of the rule in the reduct by the set, if anything.
    pub fn reduct(&self, set: AtomSet) -> Option<NamedRule> {
        is_disjoint(set_of(self.neg), set).then_some(NamedRule { neg: &[], ..*self })
    }
}

impl fmt::Display for NamedRule {
    fn fmt<W: fmt::Write>(&self, f: &mut fmt::Formatter<W>) -> fmt::Result {
        write!(f, "{} {}", self.points, self.head)?;
        let pos = self.pos.iter().copied().map(Literal::Holds);
        let neg = self.neg.iter().copied().map(Literal::Not);
        for (i, literal) in pos.chain(neg).enumerate() {
            let before = if i == 0 { " :- " } else { ", " };
            write!(f, "{before}{literal}")?;
        }
        f.write_str(".")
    }
}

/// An atom of a body, or its negation.
#[derive(Clone, Copy)]
enum Literal {
    Holds(Name),
    Not(Name),
}

impl fmt::Display for Literal {
    fn fmt<W: fmt::Write>(&self, f: &mut fmt::Formatter<W>) -> fmt::Result {
        match self {
            Literal::Holds(name) => write!(f, "{name}"),
            Literal::Not(name) => write!(f, "not {name}"),
        }
    }
}

/// The set of the atoms with these names.
fn set_of(names: &[Name]) -> AtomSet {
    names.iter().copied().map(Atom::from).fold(0, with)
}
