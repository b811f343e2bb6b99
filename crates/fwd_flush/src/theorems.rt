//! Theorems that hold for every flush, whatever its loop answers and in whatever order events come.

ghost use Rattle.std.specs.Prelude.{◌≡◌, ◌++◌, List, ℕ};
ghost use Rattle.fwd_outside.specs.Program.{Return, Execution};
ghost use Rattle.fwd_outside.specs.Loop.{LoopEntry};
ghost use Rattle.fwd_flush.specs.FlushProgram.{Delivery, Progress, not_started, starts};
ghost use Rattle.fwd_flush.specs.Outcome.{Event, Occurrence, Occurrences, ProgressRepresents, HasLink, IsFlush, Reaches, program_at, events_of_occurrence, events_of, events_and_calls, calls_of};

/// A started flush has the progress that its dial and its pushes determine.
pub fn starts_as_outcome()
    ensures { (d : Delivery) (output : ℕ) (tag : List ℕ) (es : List LoopEntry) (p : Progress)
        → Execution (starts d output tag not_started) es (Return p) → ProgressRepresents d (events_of es) p }
{}

/// After any next event, a flush has the progress that all its events determine.
pub fn goes_on_as_outcome()
    ensures { (d : Delivery) (turn : Occurrence) (events : List Event) (es : List LoopEntry) (p q : Progress)
        → ProgressRepresents d events p → Execution (program_at d turn p) es (Return q) → ProgressRepresents d (events ++ (events_of_occurrence turn ++ events_of es)) q }
{}

/// A flush in flight has the link that it dialled; an ended one has closed it.
pub fn ended_has_closed()
    ensures starts { (d : Delivery) (output : ℕ) (tag : List ℕ) (es : List LoopEntry) (p : Progress)
        → Execution (starts d output tag not_started) es (Return p) → HasLink es p.stage }
    ensures goes { (d : Delivery) (turn : Occurrence) (calls es : List LoopEntry) (p q : Progress)
        → HasLink calls p.stage → Execution (program_at d turn p) es (Return q) → HasLink (calls ++ es) q.stage }
{}

/// The outcome of a flush is that of its events. Its `taken` counts what its pushes took. That is a
/// prefix of the payload, and the whole payload if the outcome is OK.
pub fn outcome_of_flush()
    ensures { (d : Delivery) (output : ℕ) (tag : List ℕ) (es : List LoopEntry) (turns : Occurrences) (first last : Progress)
        → Execution (starts d output tag not_started) es (Return first) → Reaches d first turns last
        → IsFlush d (events_of es ++ events_and_calls turns) (es ++ calls_of turns) last }
{}
