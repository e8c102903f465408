//! Where the enumeration of the stable sets stands.
use semantics::set::AtomSet;

/// Stale since opening or the last change; before the first stable set; after a stable set; or ended.
#[derive(Clone, Copy, PartialEq, Eq, Debug)]
pub enum Cursor {
    Stale,
    First,
    After(AtomSet),
    Ended,
}
