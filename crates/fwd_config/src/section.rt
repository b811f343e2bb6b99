//! The parsed configuration: sections, their entries and their places.

ghost use Rattle.std.specs.Prelude.{◌≡◌, IfOk};

use fwd_base::{Bytes, Items, Memory};
use std::alloc::Global;

/// A place in a configuration: the path by which its file was read, and the line number from 1.
#[derive(Debug, Drop, PartialEq, Eq)]
pub struct Place {
    pub file: Bytes,
    pub line: u64,
}

impl Place {
    /// Returns a copy.
    pub fn try_clone(&self, alloc: Global) -> Result<Place, Memory>
        ensures { IfOk result (λ copy. copy ≡ self.now) }
    {
        Ok(Place {
            file: self.file.try_clone(alloc)?,
            line: self.line,
        })
    }
}

/// A key with its value. The variables of the value are replaced. Keys ignore case.
#[derive(Debug, Drop, PartialEq, Eq)]
pub struct Entry {
    pub key: Bytes,
    pub value: Bytes,
    pub place: Place,
}

/// The entries of a section, in order.
pub type Entries = Items<Entry>;

/// A section: the name in its header, the place of the header, and the entries after it. Names of sections
/// ignore case.
#[derive(Debug, Drop, PartialEq, Eq)]
pub struct Section {
    pub name: Bytes,
    pub place: Place,
    pub entries: Entries,
}

/// Sections, in order.
pub type Sections = Items<Section>;
