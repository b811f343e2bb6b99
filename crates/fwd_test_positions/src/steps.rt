//! Calls on keepers, with the answers that are wanted.

use fwd_positions::{KeepErr, Keeper};

/// A call with the answer that is wanted.
#[derive(Clone, Copy)]
pub enum Step {
    /// A get returns this offset.
    Gets(&'static str, &'static str, Option<u64>),
    /// A put succeeds.
    Puts(&'static str, &'static str, u64),
    /// A get and a put fail.
    Refuses(&'static str),
}

pub fn gets<K: Keeper>(keeper: &mut K, db: &str, path: &str, wanted: Option<u64>) -> bool {
    match keeper.get(db.as_bytes(), path.as_bytes()) {
        Ok(place) => place == wanted,
        Err(_) => false,
    }
}

pub fn puts<K: Keeper>(keeper: &mut K, db: &str, path: &str, place: u64) -> bool {
    keeper.put(db.as_bytes(), path.as_bytes(), place).is_ok()
}

pub fn refuses<K: Keeper>(keeper: &mut K, db: &str) -> bool {
    matches!(keeper.get(db.as_bytes(), b"/l"), Err(KeepErr::Failed))
        && matches!(keeper.put(db.as_bytes(), b"/l", 1), Err(KeepErr::Failed))
}

fn is_taken<K: Keeper>(keeper: &mut K, step: Step) -> bool {
    match step {
        Step::Gets(db, path, wanted) => gets(keeper, db, path, wanted),
        Step::Puts(db, path, place) => puts(keeper, db, path, place),
        Step::Refuses(db) => refuses(keeper, db),
    }
}

/// Returns whether each call has the answer that is wanted.
pub fn are_taken<K: Keeper>(keeper: &mut K, steps: &[Step]) -> bool {
    steps.iter().all(|step| is_taken(keeper, *step))
}
