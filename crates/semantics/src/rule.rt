//! A rule read out of the tables.
ghost use Rattle.std.specs.Prelude.{◌≡◌, ◌-◌, ◌^◌, ◌<◌};
ghost use Rattle.semantics.specs.Sets.{width};

use crate::atom::Atom;
use crate::set::AtomSet;

/// The head follows where every atom of `pos` holds and none of `neg` does. The grade stays in the grade table, in the row at
/// `place`; `rank` stands for it where grades are only compared: of two rules the one with the greater grade has the
/// greater rank. There is always a number above all ranks.
#[derive(Clone, Copy, PartialEq, Eq, Debug)]
pub struct PlainRule {
    pub head: Atom,
    pub pos: AtomSet,
    pub neg: AtomSet,
    pub place: usize,
    pub rank: usize,
    ghost low: { (pos < 2 ^ width) × (rank < 2 ^ 64 - 1) },
}

impl PlainRule {
    /// A rule before it is ranked among others: it has the lowest rank.
    pub fn new(head: Atom, pos: AtomSet, neg: AtomSet, place: usize) -> PlainRule
        ensures head { result.head ≡ head }
        ensures pos { result.pos ≡ pos }
        ensures neg { result.neg ≡ neg }
        ensures place { result.place ≡ place }
        ensures rank { result.rank ≡ 0 }
    {
        PlainRule {
            head,
            pos,
            neg,
            place,
            rank: 0,
        }
    }
}

/// The fact that the lowest atom holds, for arrays that want a value. By hand: no derive looks into a ghost field.
impl Default for PlainRule {
    ghost is_default = { λ rule. (rule.head.number ≡ 0) × (rule.pos ≡ 0) × (rule.neg ≡ 0) × (rule.place ≡ 0) × (rule.rank ≡ 0) };

    fn default() -> PlainRule {
        PlainRule::new(Atom::default(), 0, 0, 0)
    }
}
