//! The offsets that a run keeps of followed files.

ghost use Rattle.std.specs.Prelude.{◌≡◌, ◌≤◌, ◌++◌, [], map, Ok, IfOk, OnOk};
ghost use Rattle.fwd_outside.specs.Cause.{HasCause};
ghost use Rattle.fwd_settings.specs.Requirements.{MeetsRequirements};
ghost use Rattle.fwd_settings.specs.declared.settings_types.AllSettings.{AllSettings};
ghost use Rattle.fwd_model.specs.Fact.{History};
ghost use Rattle.fwd_model.specs.Trace.{Action};
ghost use Rattle.fwd_model.specs.Settings.{followed_paths};
ghost use Rattle.fwd_model.specs.FollowedFiles.{settled};
ghost use Rattle.fwd_model.specs.CallLogs.{CallLogs};
ghost use Rattle.fwd_model.specs.KeptOffsets as model;
ghost use Rattle.fwd_model.specs.KeptOffsets.{Tracked, tracked, tracked_by, tracked_from, kept_at, puts_by, gets, puts};
ghost use Rattle.fwd_model.specs.Run.{RunResult};
ghost use Rattle.fwd_theorem_trace.specs.Allowed.{IsLoading, IsStart};
ghost use Rattle.fwd_engine.specs.EngineSteps.{IsAt};
ghost use Rattle.fwd_engine_run.specs.OffsetRows.{GetsOutcome, IsRow, Keeps, PutsOutcome, with_keeper};
ghost use Rattle.fwd_engine_run.specs.OneOffset.{IsPath, OffsetPut, OffsetsGot, gets_one, new_row, tracked_file};
ghost use Rattle.fwd_engine_run.specs.declared.kept_offsets.Got.TheVariants as got;

use fwd_base::{Bytes, InputId, Memory};
use fwd_engine::Engine;
use fwd_keeper::{KeepErr, Keeper};
use fwd_settings::{AllSettings, InputKind, InputSet};
use std::alloc::Global;

/// A followed file whose offset is kept, and the offset that the database has of it.
#[derive(Drop)]
struct KeptOffset {
    input: InputId,
    index: u64,
    db: Bytes,
    path: Bytes,
    kept: Option<u64>,
}

/// Whether all offsets were got.
#[derive(Clone, Copy, Debug, PartialEq, Eq)]
pub enum Got {
    All,
    /// A call on the keeper failed.
    Failed,
}

/// Returns the offset to put: the settled one, unless it is the one that is kept.
fn to_put(settled: Option<u64>, kept: Option<u64>) -> Option<u64>
    ensures { result ≡ model.to_put settled kept }
{
    match (settled, kept) {
        (Some(place), Some(had)) => { if place == had { None } else { Some(place) } }
        (Some(place), None) => Some(place),
        (None, _) => None,
    }
}

impl KeptOffset {
    /// Returns a followed file without an offset.
    fn new(
        alloc: Global,
        input: InputId,
        index: u64,
        db: &[u8],
        path: &[u8],
    ) -> Result<KeptOffset, Memory>
        ensures { IfOk result (λ row. row ≡ new_row (tracked_file input.0 index db.now path.now)) }
    {
        let db = Bytes::from_slice(alloc, db)?;
        let path = Bytes::from_slice(alloc, path)?;
        Ok(KeptOffset {
            input,
            index,
            db,
            path,
            kept: None,
        })
    }

    /// Gets the offset from the keeper, and resumes reading there.
    fn get<K: Keeper>(&self, engine: &mut Engine, keeper: &mut K) -> Result<Got, Memory>
        ensures gets { (others : CallLogs) (s : AllSettings) (h : History) (t : Tracked) (failed next : History → Action RunResult) → IsAt engine.old s h → IsStart h → IsRow [] self.now t
            → OffsetsGot (with_keeper (K.call_log keeper.old) others) (with_keeper (K.call_log keeper.new) others) s failed next (gets_one s t failed next h) engine.new result }
        ensures cause { HasCause (K.faults keeper.old) (K.faults keeper.new) (result ≡ Ok got.Failed) }
    {
        match keeper.get(self.db.as_slice(), self.path.as_slice()) {
            Ok(Some(place)) => {
                engine.resume(self.input, self.path.as_slice(), place)?;
                Ok(Got::All)
            }
            Ok(None) => Ok(Got::All),
            Err(KeepErr::Failed) => Ok(Got::Failed),
            Err(KeepErr::Memory) => Err(Memory),
        }
    }

    /// Takes the settled offset as the one that the database has, as it is after the gets.
    fn take_settled(&mut self, engine: &Engine)
        ensures { (s : AllSettings) (h : History) (t : Tracked) → IsAt engine.now s h → IsStart h → IsPath s t → IsRow [] self.old t → IsRow h self.new t }
    {
        self.kept = engine.settled(self.input, self.index);
    }

    /// Puts the settled offset, unless it is kept. After a failure it is put again after the next turn.
    fn put<K: Keeper>(&mut self, engine: &Engine, keeper: &mut K) -> Result<(), Memory>
        ensures puts { (others : CallLogs) (s : AllSettings) (h : History) (t : Tracked) (next : History → Action RunResult) → IsAt engine.now s h → IsPath s t → IsRow h self.old t
            → OffsetPut (with_keeper (K.call_log keeper.old) others) (with_keeper (K.call_log keeper.new) others) s h t next (puts_by t (model.to_put (settled s h t.input t.index) (kept_at h t.input t.index)) next h) engine.now self.new result }
        ensures later { K.faults keeper.old ≤ K.faults keeper.new }
    {
        let settled = engine.settled(self.input, self.index);
        if let Some(place) = to_put(settled, self.kept) {
            match keeper.put(self.db.as_slice(), self.path.as_slice(), place) {
                Ok(()) => self.kept = Some(place),
                Err(KeepErr::Failed) => {}
                Err(KeepErr::Memory) => return Err(Memory),
            }
        }
        Ok(())
    }
}

/// Adds the files of these paths.
fn push_paths(
    alloc: Global,
    rows: &mut Vec<KeptOffset>,
    input: InputId,
    db: &[u8],
    paths: &[Bytes],
) -> Result<(), Memory>
    ensures { OnOk result (rows.new.items ≡ rows.old.items ++ map new_row (tracked_from input.0 0 db.now paths.now)) }
{
    for (index, path) in paths.iter().enumerate() {
        rows.push(KeptOffset::new(alloc, input, index as u64, db, path.as_slice())?)?;
    }
    Ok(())
}

/// Adds the followed files of an input, if their offsets are kept.
fn push_tracked(
    alloc: Global,
    rows: &mut Vec<KeptOffset>,
    input: InputId,
    set: &InputSet,
) -> Result<(), Memory>
    ensures { OnOk result (rows.new.items ≡ rows.old.items ++ map new_row (tracked_by input.0 set.now.db (followed_paths set.now.kind))) }
{
    let Some(db) = &set.db else {
        return Ok(());
    };
    match &set.kind {
        InputKind::Tail {
            paths,
            from_head: _,
        } => push_paths(alloc, rows, input, db.as_slice(), paths.as_slice()),
        InputKind::Tcp { .. } | InputKind::Forward { .. } | InputKind::Stdin => Ok(()),
    }
}

/// The followed files whose offsets are kept, each with the offset that the database has of it.
#[derive(Drop)]
pub struct KeptOffsets {
    rows: Vec<KeptOffset>,
}

impl KeptOffsets {
    /// Returns the followed files of all inputs with a database, by input and path, without an offset.
    pub fn of(alloc: Global, settings: &AllSettings) -> Result<KeptOffsets, Memory>
        requires { MeetsRequirements settings.now }
        ensures { IfOk result (λ offsets. Keeps settings.now offsets []) }
    {
        let mut rows = Vec::new(alloc);
        for (at, set) in settings.inputs.as_slice().iter().enumerate() {
            push_tracked(alloc, &mut rows, InputId(at as u32), set)?;
        }
        Ok(KeptOffsets { rows })
    }

    /// Gets the offset of each file from the keeper, in order, and resumes reading there. The first call that
    /// fails ends it. After `Memory` the engine can't be used any more.
    pub fn get<K: Keeper>(&mut self, engine: &mut Engine, keeper: &mut K) -> Result<Got, Memory>
        ensures gets { (others : CallLogs) (s : AllSettings) (h : History) (failed next : History → Action RunResult) → IsAt engine.old s h → IsLoading h → Keeps s self.old []
            → GetsOutcome (with_keeper (K.call_log keeper.old) others) (with_keeper (K.call_log keeper.new) others) s failed next (gets s (tracked s) failed next h) engine.new self.new result }
        ensures cause { HasCause (K.faults keeper.old) (K.faults keeper.new) (result ≡ Ok got.Failed) }
    {
        match self.get_each(engine, keeper) {
            Ok(Got::All) => {
                self.take_settled(engine);
                Ok(Got::All)
            }
            Ok(Got::Failed) => Ok(Got::Failed),
            Err(Memory) => Err(Memory),
        }
    }

    /// Gets the offsets and resumes reading there. The rows stay without an offset.
    fn get_each<K: Keeper>(&self, engine: &mut Engine, keeper: &mut K) -> Result<Got, Memory>
        ensures gets { (others : CallLogs) (s : AllSettings) (h : History) (failed next : History → Action RunResult) → IsAt engine.old s h → IsStart h → Keeps s self.now []
            → OffsetsGot (with_keeper (K.call_log keeper.old) others) (with_keeper (K.call_log keeper.new) others) s failed next (gets s (tracked s) failed next h) engine.new result }
        ensures cause { HasCause (K.faults keeper.old) (K.faults keeper.new) (result ≡ Ok got.Failed) }
    {
        for row in self.rows.as_slice() {
            match row.get(engine, keeper)? {
                Got::All => {}
                Got::Failed => return Ok(Got::Failed),
            }
        }
        Ok(Got::All)
    }

    /// Takes the settled offsets as those that the database has, as they are after the gets.
    fn take_settled(&mut self, engine: &Engine)
        ensures { (s : AllSettings) (h : History) → IsAt engine.now s h → IsStart h → Keeps s self.old [] → Keeps s self.new h }
    {
        for at in 0..self.rows.len() {
            self.rows[at].take_settled(engine);
        }
    }

    /// Puts the settled offset of each file, unless it is the one that is kept. A put that failed is made
    /// again after the next turn.
    pub fn put<K: Keeper>(&mut self, engine: &Engine, keeper: &mut K) -> Result<(), Memory>
        ensures puts { (others : CallLogs) (s : AllSettings) (h : History) (next : History → Action RunResult) → IsAt engine.now s h → Keeps s self.old h
            → PutsOutcome (with_keeper (K.call_log keeper.old) others) (with_keeper (K.call_log keeper.new) others) s h next (puts s (tracked s) next h) engine.now self.new result }
        ensures later { K.faults keeper.old ≤ K.faults keeper.new }
    {
        for at in 0..self.rows.len() {
            self.rows[at].put(engine, keeper)?;
        }
        Ok(())
    }
}
