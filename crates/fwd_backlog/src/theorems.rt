//! Theorems about loading, whatever the disk answers.

ghost use Rattle.std.specs.Prelude.{◌≡◌, ◌≢◌, ◌↔◌, ◌≤◌, ◌<◌, List, ℕ, Option, Some, false, Contains, All, AllPairs};
ghost use Rattle.std.specs.List.{AllZip};
ghost use Rattle.std.specs.List.Sorted.{IsStrictlySortedBy};
ghost use Rattle.fwd_base.specs.Limits.{numbers_end};
ghost use Rattle.fwd_outside.specs.Program.{Return, Execution};
ghost use Rattle.fwd_outside.specs.AtCrashPoints.{Ends, AtCrashPoints};
ghost use Rattle.fwd_outside.specs.Disk.{DiskEntry, DiskGiven, DiskProgram, IsFileName};
ghost use Rattle.fwd_outside.specs.DiskStates.{Files, DiskTransition, IsReachable};
ghost use Rattle.fwd_chunk.specs.Name.{file_name};
ghost use Rattle.fwd_chunk.specs.declared.chunk.Found.{Found};
ghost use Rattle.fwd_backlog.specs.declared.listed_file.Listed.{Listed};
ghost use Rattle.fwd_backlog.specs.Serial.{next_number};
ghost use Rattle.fwd_backlog.specs.Listing.{path_of, by_name, in_order};
ghost use Rattle.fwd_backlog.specs.declared.file_read.FileRead.{FileRead};
ghost use Rattle.fwd_backlog.specs.declared.load.Backlog.{Backlog};
ghost use Rattle.fwd_backlog.specs.LoadProgram.{load_program, IsDescriptionOf, IsBacklog};
ghost use Rattle.fwd_backlog.specs.Recovered.{place_of, HaveListableNames, AreRecoveredFrom, AreDurable, LeavesNoMore};

/// The order of files has each of them once, by name, then by stream.
pub fn files_are_in_order()
    ensures sorted { (files : List Listed) → IsStrictlySortedBy by_name (in_order files) }
    ensures same { (files : List Listed) (file : Listed) → Contains (in_order files) file ↔ Contains files file }
{}

/// At each point of loading a read returns what it returned before, and a crash leaves nothing that it
/// couldn't have left before.
pub fn loading_is_crash_safe()
    ensures { (root : List ℕ) (given : DiskGiven) (before entries : List DiskEntry) (files : Files) (left : DiskProgram (Option (List FileRead)))
        → IsReachable given before files → Execution (load_program root) entries left → AtCrashPoints DiskTransition (LeavesNoMore files) files entries }
{}

/// A complete load returns what is on the disk.
pub fn loaded_files_are_on_disk()
    ensures { (root : List ℕ) (given : DiskGiven) (before entries : List DiskEntry) (first last : Files) (files : List FileRead) (found : List Found)
        → IsReachable given before first → Execution (load_program root) entries (Return (Some files)) → Ends DiskTransition first entries last → AllZip IsDescriptionOf files found → AreRecoveredFrom root last found }
{}

/// On a disk whose files are all durable, loading changes no file at any point.
pub fn loading_changes_no_durable_file()
    ensures { (root : List ℕ) (files : Files) (entries : List DiskEntry) (left : DiskProgram (Option (List FileRead)))
        → AreDurable files → Execution (load_program root) entries left → AtCrashPoints DiskTransition (λ now. now ≡ files) files entries }
{}

/// No stream has a file with the name of the next number, or of a later one.
pub fn later_numbers_are_free()
    ensures { (root stream : List ℕ) (number : ℕ) (files : Files) (found : List Found)
        → AreRecoveredFrom root files found → IsFileName stream → next_number found ≤ number → number < numbers_end
        → (files (file_name root stream number)).there ≡ false }
{}

/// No recovered file has the name of the next number or a later one, in any stream.
pub fn later_names_are_new()
    ensures { (root stream : List ℕ) (number : ℕ) (found : List Found) → HaveListableNames found → next_number found ≤ number → number < numbers_end
        → All (λ file. path_of root (place_of file) ≢ file_name root stream number) found }
{}

/// Files that were read have one backlog. It doesn't depend on the threads that check them, on their number
/// or on the grouping of the files.
pub fn one_backlog()
    ensures { (files : List FileRead) (one two : Backlog) → IsBacklog files one → IsBacklog files two → one ≡ two }
{}

/// Recovered files have different paths.
pub fn recovered_paths_differ()
    ensures { (root : List ℕ) (found : List Found) → HaveListableNames found → AllPairs (λ one other. path_of root (place_of one) ≢ path_of root (place_of other)) found }
{}

/// Files of two streams, or of two names, have two paths.
pub fn paths_determine_files()
    ensures { (root : List ℕ) (one two : Listed) → IsFileName one.stream → IsFileName two.stream → path_of root one ≡ path_of root two → one ≡ two }
{}
