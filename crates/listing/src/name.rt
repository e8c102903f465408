//! The atoms of the sample by name.
use semantics::atom::Atom;
use std::fmt;

/// The name of an atom, in the order of the atoms' numbers.
#[derive(Clone, Copy, PartialEq, Eq, Debug)]
pub enum Name {
    Echo,
    Buoy,
    Vessel,
    Track,
}

impl Name {
    /// All names, each at its atom's number.
    pub const ALL: [Name; 4] = [Name::Echo, Name::Buoy, Name::Vessel, Name::Track];
}

impl From<Name> for Atom {
    fn from(name: Name) -> Atom {
        Atom::try_from(name as usize).unwrap()
    }
}

impl fmt::Display for Name {
    fn fmt<W: fmt::Write>(&self, f: &mut fmt::Formatter<W>) -> fmt::Result {
        f.write_str(match self {
            Name::Echo => "echo",
            Name::Buoy => "buoy",
            Name::Vessel => "vessel",
            Name::Track => "track",
        })
    }
}
