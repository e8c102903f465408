//! What is decided of the sets that are looked for.
ghost use Rattle.std.specs.Prelude.{◌≡◌, Decides, bit_or};
ghost use Rattle.semantics.specs.Sets.{width, adding, others, Apart};

use semantics::atom::Atom;
use semantics::set::{AtomSet, complement, is_disjoint, with};

/// What is decided: the atoms of `present` are in every set that is looked for, those of `absent` in none. The others are
/// open.
#[derive(Clone, Copy, PartialEq, Eq, Debug)]
pub struct Bounds {
    pub present: AtomSet,
    pub absent: AtomSet,
}

impl Bounds {
    /// Every atom is open.
    pub const OPEN: Bounds = Bounds {
        present: 0,
        absent: 0,
    };

    /// Is no atom decided both ways?
    pub(crate) fn is_consistent(self) -> bool
        ensures { Decides result (Apart self.present self.absent) }
    {
        is_disjoint(self.present, self.absent)
    }

    /// The atoms that are not decided.
    pub(crate) fn open(self) -> AtomSet
        ensures { result ≡ others width (bit_or self.present self.absent) }
    {
        complement(self.present | self.absent)
    }

    /// The atom present too.
    pub(crate) fn with_present(self, atom: Atom) -> Bounds
        ensures { result ≡ record { present = adding self.present atom.number; absent = self.absent } }
    {
        Bounds {
            present: with(self.present, atom),
            ..self
        }
    }

    /// The atom absent too.
    pub(crate) fn with_absent(self, atom: Atom) -> Bounds
        ensures { result ≡ record { present = self.present; absent = adding self.absent atom.number } }
    {
        Bounds {
            absent: with(self.absent, atom),
            ..self
        }
    }
}
