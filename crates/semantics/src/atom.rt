//! One of the atoms.
ghost use Rattle.std.specs.Prelude.{◌≡◌, ◌<◌};
ghost use Rattle.semantics.specs.Sets.{width};

/// How many atoms there are.
pub const ATOMS: usize = 64;

/// An atom: a number below the number of atoms. A type of its own, so that no grade can stand for an atom.
#[derive(Clone, Copy, PartialEq, Eq, PartialOrd, Ord, Debug)]
pub struct Atom {
    number: u8,
    ghost ok: { number < width },
}

impl Atom {
    /// The atom of a number that is known to be below the number of atoms.
    pub(crate) fn new(number: u8) -> Atom
        requires { number < width }
        ensures { result.number ≡ number }
    {
        Atom { number }
    }

    /// The atom's number.
    pub fn number(self) -> u8
        ensures { result ≡ self.number }
    {
        self.number
    }
}

/// The lowest atom, for arrays that want a value. By hand: no derive looks into a ghost field.
impl Default for Atom {
    ghost is_default = { λ atom. atom.number ≡ 0 };

    fn default() -> Atom {
        Atom::new(0)
    }
}
