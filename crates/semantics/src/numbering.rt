//! Atoms by their numbers.
ghost use Rattle.std.specs.Prelude.{◌≡◌};
ghost use Rattle.semantics.specs.Atoms.{AtomFrom};

use crate::atom::{ATOMS, Atom};
use scale::refusal::Refusal;

/// The atom with this number; one that is not below the number of atoms is refused.
impl TryFrom<usize> for Atom {
    type Error = Refusal;

    ghost try_from_gives = { AtomFrom };

    fn try_from(number: usize) -> Result<Atom, Refusal> {
        if number < ATOMS {
            Ok(Atom::new(number as u8))
        } else {
            Err(Refusal::NoSuchAtom)
        }
    }
}

/// The atom's number, as its place in a table of all atoms.
impl From<Atom> for usize {
    ghost from_gives = { λ atom place. place ≡ atom.number };

    fn from(atom: Atom) -> usize {
        usize::from(atom.number())
    }
}
