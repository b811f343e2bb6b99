//! Loading: reads the main file, each included file when its line is reached, and then the parser files.

ghost use Rattle.std.specs.Prelude.{◌≡◌, ◌⊎◌, ◌<◌, ℕ};
ghost use Rattle.fwd_outside.specs.Program.{Return, bind};
ghost use Rattle.fwd_outside.specs.Log.{RunsProgram};
ghost use Rattle.fwd_outside.specs.Cause.{HasCause};
ghost use Rattle.fwd_outside.specs.Files.{read_whole_program};
ghost use Rattle.fwd_config.specs.Variables.{Values, environment};
ghost use Rattle.fwd_config.specs.Text.{Text, place};
ghost use Rattle.fwd_config.specs.Sections.{text_of, with_file, with_files, with_parser_files, load_program, reads_files, fault};
ghost use Rattle.fwd_config.specs.LoadResult.{outcome, IsFileFault, ReadsInto, IsResultOfFiles};
ghost use Rattle.fwd_config.specs.Representation.{OutlineRepresents};

use crate::line::first_line;
use crate::outline::{Outline, place};
use crate::{ConfigFault, ConfigKind, Place, Sections};
use fwd_base::{Bytes, Names, is_utf8};
use fwd_outside::{FileErr, Files, read_whole};
use std::alloc::Global;

/// How many files may be open at once: the main file, and eight nested includes.
const OPEN_FILES: usize = 9;

/// Returns the error of a file at one of its lines.
fn fault_at(alloc: Global, kind: ConfigKind, file: &[u8], line: u64) -> ConfigFault
    ensures { (result.kind ≡ ConfigKind.Memory) ⊎ (result ≡ fault kind (place file.now line)) }
{
    match place(alloc, file, line) {
        Ok(place) => ConfigFault { kind, place },
        Err(_) => out_of_memory(alloc),
    }
}

fn out_of_memory(alloc: Global) -> ConfigFault
    ensures { result.kind ≡ ConfigKind.Memory }
{
    ConfigFault {
        kind: ConfigKind::Memory,
        place: Place {
            file: Bytes::new(alloc),
            line: 0,
        },
    }
}

/// Reads a whole file. Fails if it can't be read or isn't UTF-8.
fn read_text<F: Files>(alloc: Global, files: &mut F, file: &[u8]) -> Result<Bytes, ConfigFault>
    ensures calls { RunsProgram (F.call_log files.old) (F.call_log files.new)
        (bind (read_whole_program file.now) (λ content. Return (text_of file.now content))) (outcome result) }
    ensures cause { HasCause (F.faults files.old) (F.faults files.new) (IsFileFault result) }
{
    match read_whole(alloc, files, file) {
        Ok(content) => {
            if is_utf8(content.as_slice()) {
                Ok(content)
            } else {
                Err(fault_at(alloc, ConfigKind::NotUtf8, file, 0))
            }
        }
        Err(FileErr::Failed) => Err(fault_at(alloc, ConfigKind::FileFault, file, 0)),
        Err(FileErr::Memory) => Err(out_of_memory(alloc)),
    }
}

/// Adds the lines of a file to the outline, with each included file in its place. At most `may_open` files
/// may be open at once.
fn read_file<F: Files>(
    alloc: Global,
    files: &mut F,
    outline: &mut Outline,
    file: &[u8],
    may_open: usize,
) -> Result<(), ConfigFault>
    requires { 0 < may_open }
    ensures calls { (env : Values) (above : Text) → OutlineRepresents env above outline.old
        → ReadsInto env (F.call_log files.old) (F.call_log files.new)
        (with_file env may_open file.now above) outline.new result }
    ensures cause { HasCause (F.faults files.old) (F.faults files.new) (IsFileFault result) }
{
    let content = read_text(alloc, files, file)?;
    let includes_left = may_open - 1;
    let mut rest = content.as_slice();
    let mut number: u64 = 0;
    'lines: while !rest.is_empty() {
        let (line, behind) = first_line(rest);
        rest = behind;
        number += 1;
        match outline.line(alloc, file, number, includes_left, line) {
            Ok(None) => {}
            Ok(Some(included)) => {
                read_file(alloc, files, outline, included.as_slice(), includes_left)?;
            }
            Err(kind) => return Err(fault_at(alloc, kind, file, number)),
        }
    }
    Ok(())
}

/// Adds the lines of several files, in order.
fn read_files<F: Files>(
    alloc: Global,
    files: &mut F,
    outline: &mut Outline,
    names: &Names,
) -> Result<(), ConfigFault>
    ensures calls { (env : Values) (above : Text) → OutlineRepresents env above outline.old
        → ReadsInto env (F.call_log files.old) (F.call_log files.new)
        (with_files env 8 names.now above) outline.new result }
    ensures cause { HasCause (F.faults files.old) (F.faults files.new) (IsFileFault result) }
{
    for name in names.as_slice() {
        read_file(alloc, files, outline, name.as_slice(), OPEN_FILES - 1)?;
    }
    Ok(())
}

/// Reads the main file, and then the parser files that it names.
fn read_all<F: Files>(
    alloc: Global,
    files: &mut F,
    path: &[u8],
    env: &[(String, String)],
) -> Result<Sections, ConfigFault>
    ensures calls { RunsProgram (F.call_log files.old) (F.call_log files.new)
        (reads_files (load_program (environment env.now) path.now)) (outcome result) }
    ensures cause { HasCause (F.faults files.old) (F.faults files.new) (IsFileFault result) }
{
    let Ok(mut outline) = Outline::new(alloc, env) else {
        return Err(out_of_memory(alloc));
    };
    read_file(alloc, files, &mut outline, path, OPEN_FILES)?;
    let Ok(parsers) = outline.parser_files(alloc) else {
        return Err(out_of_memory(alloc));
    };
    read_files(alloc, files, &mut outline, &parsers)?;
    Ok(outline.into_sections())
}

/// Returns the sections of a configuration: those of its main file, with each included file's lines in
/// place of the line that includes it and each variable replaced by its value, then those of the parser
/// files that it names. Fails with the first error in the order of the text, and reads nothing after it.
pub fn load<F: Files>(
    alloc: Global,
    files: &mut F,
    path: &[u8],
    env: &[(String, String)],
) -> Result<Sections, ConfigFault>
    // Each file is read when it is reached: one call asks for its length, and one reads that many bytes.
    ensures calls { RunsProgram (F.call_log files.old) (F.call_log files.new)
        (reads_files (load_program (environment env.now) path.now)) (outcome result) }
    ensures meaning { IsResultOfFiles (F.call_log files.old) (F.call_log files.new)
        path.now (environment env.now) result }
    ensures cause { HasCause (F.faults files.old) (F.faults files.new) (IsFileFault result) }
{
    read_all(alloc, files, path, env)
}
