ghost use Rattle.std.specs.Prelude.{◌≡◌, ℕ, true, List, [], Contains, Option, Some};
ghost use Rattle.fwd_outside.specs.Program.{Return, Execution};
ghost use Rattle.fwd_outside.specs.AtCrashPoints.{Ends, AtCrashPoints};
ghost use Rattle.fwd_outside.specs.declared.ends.Ends.{Ends as InputEnds};
ghost use Rattle.fwd_outside.specs.declared.happening.Happening.{Happening};
ghost use Rattle.fwd_outside.specs.declared.home.Home.TheVariants.{Disk};
ghost use Rattle.fwd_outside.specs.File.{IsPostCrash, content};
ghost use Rattle.fwd_outside.specs.DiskStates.{Files};
ghost use Rattle.fwd_backlog.specs.Recovered.{AreDurable};
ghost use Rattle.fwd_settings.specs.declared.settings_types.AllSettings.{AllSettings};
ghost use Rattle.fwd_settings.specs.Requirements.{MeetsRequirements};
ghost use Rattle.fwd_model.specs.Fact.{History, Route, Marked};
ghost use Rattle.fwd_model.specs.Trace.{Action, TraceEntry, history_after};
ghost use Rattle.fwd_model.specs.Chunks.{ChunkInfo, chunks_of};
ghost use Rattle.fwd_model.specs.Routes.{is_owed, home_of};
ghost use Rattle.fwd_model.specs.KeptOffsets.{tracked, gets, puts};
ghost use Rattle.fwd_model.specs.RecoveryActions.{recovers};
ghost use Rattle.fwd_model.specs.StepActions.{step};
ghost use Rattle.fwd_model.specs.Run.{RunResult, life};
ghost use Rattle.fwd_theorem_trace.specs.Past.{logged};
ghost use Rattle.fwd_theorem_trace.specs.Allowed.{EventAllowed};
ghost use Rattle.fwd_theorem_trace.specs.Resolution.{WasRecoveredDone};
ghost use Rattle.fwd_theorem_crash.specs.CrashPoint.{CrashPoint, crash_point, LeadsTo};
ghost use Rattle.fwd_theorem_crash.specs.RecordedOutcomes.{is_recorded};
ghost use Rattle.fwd_theorem_crash.specs.Safety.{IsSafe, PendingAreSafe};
ghost use Rattle.fwd_theorem_crash.specs.StepBoundaries.{HasReached, turn};
ghost use Rattle.fwd_theorem_crash.specs.Recovery.{IsRecovered};
ghost use Rattle.fwd_theorem_crash.specs.FlushEvents.{FlushesSendTheirChunks};

/// Each crash point of a run is safe, however far the run has come and whatever the devices answered:
/// between two calls, and inside a call on the disk. The run began on a disk without unsynced state, and
/// its appends are fsynced.
pub fn crash_points_are_safe()
    ensures { (s : AllSettings) (ends : InputEnds) (ticks : Option ℕ) (turns : ℕ) (first : Files) (entries : List TraceEntry) (left : Action RunResult)
        → MeetsRequirements s → s.service.full ≡ true → AreDurable first → Execution (life s ends ticks turns) entries left → AtCrashPoints LeadsTo (IsSafe s first) (crash_point [] first) entries }
{}

/// The same holds for each crash point of one step, from a point that a run has reached, on the event
/// that a wait just returned or on the first `Stop`, for all answers. A step that is made to its end
/// returns the history so far. Both hold for the loading at the beginning of a run too.
pub fn steps_are_safe()
    ensures step { (s : AllSettings) (first : Files) (m : CrashPoint) (brought : Happening) (entries : List TraceEntry) (left : Action History)
        → MeetsRequirements s → s.service.full ≡ true → AreDurable first → HasReached s first m → EventAllowed s brought m.past → Execution (step s brought (logged m.past)) entries left → AtCrashPoints LeadsTo (IsSafe s first) m entries }
    ensures stepped { (s : AllSettings) (first : Files) (m last : CrashPoint) (brought : Happening) (entries : List TraceEntry) (h : History)
        → MeetsRequirements s → s.service.full ≡ true → AreDurable first → HasReached s first m → EventAllowed s brought m.past → Execution (step s brought (logged m.past)) entries (Return h) → Ends LeadsTo m entries last → h ≡ logged last.past }
    ensures loading { (s : AllSettings) (first : Files) (entries : List TraceEntry) (left : Action (Option History))
        → MeetsRequirements s → s.service.full ≡ true → AreDurable first → Execution (recovers s) entries left → AtCrashPoints LeadsTo (IsSafe s first) (crash_point [] first) entries }
    ensures loaded { (s : AllSettings) (first : Files) (last : CrashPoint) (entries : List TraceEntry) (h : History)
        → MeetsRequirements s → s.service.full ≡ true → AreDurable first → Execution (recovers s) entries (Return (Some h)) → Ends LeadsTo (crash_point [] first) entries last → h ≡ logged last.past }
{}

/// A point that a run has reached is safe. So is each crash point of a turn from there, for all answers.
/// After the turn the run has reached the next point, and the turn returns the history so far.
pub fn turns_are_safe()
    ensures come { (s : AllSettings) (first : Files) (m : CrashPoint) → MeetsRequirements s → s.service.full ≡ true → AreDurable first → HasReached s first m → IsSafe s first m }
    ensures turn { (s : AllSettings) (first : Files) (m : CrashPoint) (entries : List TraceEntry) (left : Action History)
        → MeetsRequirements s → s.service.full ≡ true → AreDurable first → HasReached s first m → Execution (turn s (logged m.past)) entries left → AtCrashPoints LeadsTo (IsSafe s first) m entries }
    ensures over { (s : AllSettings) (first : Files) (m last : CrashPoint) (entries : List TraceEntry) (h : History)
        → MeetsRequirements s → s.service.full ≡ true → AreDurable first → HasReached s first m → Execution (turn s (logged m.past)) entries (Return h) → Ends LeadsTo m entries last → HasReached s first last × (h ≡ logged last.past) }
{}

/// As a run gets offsets after it has loaded, and as it puts them after a step, it reaches each point on
/// the way: between two calls and inside one, for all answers. At the end the history so far is returned.
pub fn offset_calls_are_reached()
    ensures gets { (s : AllSettings) (first : Files) (m : CrashPoint) (loading entries : List TraceEntry) (h : History) (left : Action History)
        → Execution (recovers s) loading (Return (Some h)) → Ends LeadsTo (crash_point [] first) loading m → Execution (gets s (tracked s) Return Return h) entries left → AtCrashPoints LeadsTo (HasReached s first) m entries }
    ensures got { (s : AllSettings) (first : Files) (m last : CrashPoint) (loading entries : List TraceEntry) (h now : History)
        → Execution (recovers s) loading (Return (Some h)) → Ends LeadsTo (crash_point [] first) loading m → Execution (gets s (tracked s) Return Return h) entries (Return now) → Ends LeadsTo m entries last → HasReached s first last × (now ≡ logged last.past) }
    ensures puts { (s : AllSettings) (first : Files) (m : CrashPoint) (entries : List TraceEntry) (left : Action History)
        → HasReached s first m → Execution (puts s (tracked s) Return (logged m.past)) entries left → AtCrashPoints LeadsTo (HasReached s first) m entries }
    ensures put { (s : AllSettings) (first : Files) (m last : CrashPoint) (entries : List TraceEntry) (now : History)
        → HasReached s first m → Execution (puts s (tracked s) Return (logged m.past)) entries (Return now) → Ends LeadsTo m entries last → HasReached s first last × (now ≡ logged last.past) }
{}

/// After a crash at a point where the pending chunks are safe, a run on whatever the crash left recovers each
/// of them that is kept in a file: it is whole, and still pending for the same outputs. The exception: a call
/// on the disk fails as the run loads.
pub fn safe_chunks_are_recovered()
    ensures { (s : AllSettings) (m last : CrashPoint) (image : Files) (entries : List TraceEntry) (h : History) (c : ChunkInfo)
        → PendingAreSafe s m → AreDurable image → ((name : List ℕ) → IsPostCrash (m.files name) (content (image name)))
        → Execution (recovers s) entries (Return (Some h)) → Ends LeadsTo (crash_point [] image) entries last
        → Contains (chunks_of (logged m.past)) c → is_owed s (logged m.past) c ≡ true → home_of s c.input ≡ Disk → IsRecovered s (logged m.past) h c }
{}

/// However far a run has come, each outcome that it recorded stays recorded, and so does each that its
/// recovered files had. So no outcome is recorded twice.
pub fn recorded_outcomes_stay()
    ensures logged { (s : AllSettings) (ends : InputEnds) (ticks : Option ℕ) (turns : ℕ) (entries : List TraceEntry) (left : Action RunResult) (r : Route)
        → Execution (life s ends ticks turns) entries left → Contains (history_after entries []) (Marked r) → is_recorded s (history_after entries []) r ≡ true }
    ensures found { (s : AllSettings) (ends : InputEnds) (ticks : Option ℕ) (turns : ℕ) (entries : List TraceEntry) (left : Action RunResult) (r : Route)
        → Execution (life s ends ticks turns) entries left → WasRecoveredDone s (history_after entries []) r → is_recorded s (history_after entries []) r ≡ true }
{}

/// If appends are fsynced and the disk answers as one without unsynced state at first, each flush of a
/// run began with the events of its chunk: for a chunk in memory those that were accepted, and for a
/// chunk in a file the events of all bytes that were accepted, or recovered. So outputs get what was
/// accepted.
pub fn flushes_send_their_chunks()
    ensures { (s : AllSettings) (ends : InputEnds) (ticks : Option ℕ) (turns : ℕ) (first : Files) (entries : List TraceEntry) (left : Action RunResult) (last : CrashPoint)
        → MeetsRequirements s → s.service.full ≡ true → AreDurable first → Execution (life s ends ticks turns) entries left → Ends LeadsTo (crash_point [] first) entries last → FlushesSendTheirChunks s (history_after entries []) }
{}
