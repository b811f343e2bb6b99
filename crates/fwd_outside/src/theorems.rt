//! Theorems about every disk that may have given the answers in its log.

ghost use Rattle.std.specs.Prelude.{◌≡◌, ◌<◌, ◌≤◌, List, ℕ, Option, Some, None, All, length};
ghost use Rattle.fwd_outside.specs.Program.{Execution};
ghost use Rattle.fwd_outside.specs.AtCrashPoints.{Ends, AtCrashPoints};
ghost use Rattle.fwd_outside.specs.Disk.{DiskEntry, DiskGiven, DiskProgram, Sync, Place, Remove, places, removes};
ghost use Rattle.fwd_outside.specs.File.{FileState, FileInvariant, IsPostCrash, content, absent, after_write};
ghost use Rattle.fwd_outside.specs.DiskStates.{Files, DiskTransition, IsReachable};
ghost use Rattle.fwd_outside.specs.PostCrash.{AllPostCrash, OthersUnchanged, WholeOrAbsent, AbsentOrBefore, DiffersAtMostAt, IsOn};

/// After any calls, what reads of a disk return is one of its post-crash states.
pub fn read_is_post_crash()
    ensures { (given : DiskGiven) (entries : List DiskEntry) (files : Files) (name : List ℕ) → IsReachable given entries files → IsPostCrash (files name) (content (files name)) }
{}

/// Only calls on a name change the post-crash states of its file.
pub fn changed_only_by_own_calls()
    ensures { (name : List ℕ) (entries : List DiskEntry) (files : Files) → All (λ e. IsOn e.call name → ⊥) entries → AtCrashPoints DiskTransition (λ now. now name ≡ files name) files entries }
{}

/// After a successful sync, a crash leaves what a read returns.
pub fn sync_is_durable()
    ensures { (name : List ℕ) (old during new : Files) → DiskTransition (Sync name) (Some tt) old during new → AllPostCrash name (λ image. (image ≡ content (new name)) × (image ≡ Some (old name).bytes)) new }
{}

/// A byte that is written inside a file is the only one in doubt: each post-crash state is one from before
/// the write, except for that byte.
pub fn one_byte_in_doubt()
    ensures { (file : FileState) (at : ℕ) (left image : List ℕ) → FileInvariant file → at < length file.bytes → length left ≤ 1 → IsPostCrash (after_write file at 1 left) (Some image)
        → (before : List ℕ) × IsPostCrash file (Some before) × DiffersAtMostAt at image before }
{}

/// During an atomic create of a new name, and after it failed, a crash leaves the whole file or none; after
/// it succeeded, the whole file. During a removal, and after it failed, a crash leaves the file as before or
/// none; after it succeeded, none. No other name changes.
pub fn create_and_remove_are_atomic()
    ensures comes { (name bytes : List ℕ) (files : Files) (entries : List DiskEntry) (left : DiskProgram (Option (Unit {0})))
        → files name ≡ absent → Execution (places name bytes) entries left → AtCrashPoints DiskTransition (λ now. AllPostCrash name (WholeOrAbsent bytes) now × OthersUnchanged name files now) files entries }
    ensures goes { (name : List ℕ) (files : Files) (entries : List DiskEntry) (left : DiskProgram (Option (Unit {0})))
        → Execution (removes name) entries left → AtCrashPoints DiskTransition (λ now. AllPostCrash name (AbsentOrBefore (files name)) now × OthersUnchanged name files now) files entries }
    ensures placed { (name bytes : List ℕ) (old during new : Files) → old name ≡ absent → DiskTransition (Place name bytes) (Some tt) old during new → AllPostCrash name (λ image. image ≡ Some bytes) new }
    ensures removed { (name : List ℕ) (old during new : Files) → DiskTransition (Remove name) (Some tt) old during new → AllPostCrash name (λ image. image ≡ None) new }
{}
