//! The order of loading.

ghost use Rattle.std.specs.Prelude.{◌≡◌, IfOk};
ghost use Rattle.fwd_backlog.specs.Listing.{in_order};

use crate::listed_file::Listed;
use fwd_base::{Items, Memory};
use std::alloc::Global;
use std::collections::BTreeSet;

/// Returns the files ordered by name, then by stream.
pub fn in_order(alloc: Global, files: Items<Listed>) -> Result<Items<Listed>, Memory>
    ensures { IfOk result (λ ordered. ordered ≡ in_order files) }
{
    let mut ordered = BTreeSet::new(alloc);
    for file in files.into_vec() {
        ordered.insert(file)?;
    }
    Ok(Items::from_vec(ordered.into_iter().collect(alloc)?))
}
