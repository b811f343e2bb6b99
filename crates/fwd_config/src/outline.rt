//! The variables and sections of the lines read so far.

ghost use Rattle.std.specs.Prelude.{◌≡◌, ◌≢◌, ◌<◌, List, ℕ, [], ◌++◌, IfOk, OnOk, IsSome, vec_len};
ghost use Rattle.fwd_config.specs.Variables.{Values, environment};
ghost use Rattle.fwd_config.specs.Line.{form_of, Inclusion, Setting, Heading, Pair};
ghost use Rattle.fwd_config.specs.Text.{Text, place};
ghost use Rattle.fwd_config.specs.Meaning.{meaning, relative_path, folder};
ghost use Rattle.fwd_config.specs.Sections.{parser_files, files_of_section, files_of_entry};
ghost use Rattle.fwd_config.specs.Representation.{OutlineRepresents, FollowsMeaning, with_entry};

use crate::line::{Line, read_line, same_name};
use crate::variables::Variables;
use crate::{ConfigKind, Entries, Entry, Place, Section, Sections};
use fwd_base::{Bytes, Memory, Names};
use std::alloc::Global;

/// The variables and the sections that the lines read so far give.
#[derive(Drop)]
pub struct Outline {
    variables: Variables,
    sections: Vec<Section>,
}

/// What follows a line: the next line (`None`), or a file to be read first.
pub type NextFile = Result<Option<Bytes>, ConfigKind>;

impl Outline {
    /// Returns the outline of no lines, with the variables of the environment.
    pub fn new(alloc: Global, env: &[(String, String)]) -> Result<Outline, Memory>
        ensures { IfOk result (λ outline. OutlineRepresents (environment env.now) [] outline) }
    {
        Ok(Outline {
            variables: Variables::new(alloc, env)?,
            sections: Vec::new(alloc),
        })
    }

    /// Adds a line of a file.
    pub fn line(
        &mut self,
        alloc: Global,
        file: &[u8],
        number: u64,
        includes_left: usize,
        line: &[u8],
    ) -> NextFile
        ensures included { IfOk result (λ next. IsSome next → 0 < includes_left) }
        ensures readable { result ≢ Err ConfigKind.FileFault }
        ensures meaning { (env : Values) (above : Text) → OutlineRepresents env above self.old
            → FollowsMeaning env above
            (meaning env includes_left (place file.now number) above (form_of line.now)) self.new result }
    {
        match read_line(line) {
            Line::Nothing => Ok(None),
            Line::Include { path } => self.include(alloc, file, includes_left, path),
            Line::Set { name, value } => self.set(alloc, name, value),
            Line::Header { name } => self.header(alloc, file, number, name),
            Line::Pair { key, value } => self.pair(alloc, file, number, key, value),
            Line::BadHeader => Err(ConfigKind::BadSection),
            Line::BadCommand => Err(ConfigKind::BadSet),
        }
    }

    fn include(&self, alloc: Global, file: &[u8], includes_left: usize, path: &[u8]) -> NextFile
        ensures included { IfOk result (λ next. IsSome next → 0 < includes_left) }
        ensures readable { result ≢ Err ConfigKind.FileFault }
        ensures meaning { (env : Values) (above : Text) (number : ℕ) → OutlineRepresents env above self.now
            → FollowsMeaning env above
            (meaning env includes_left (place file.now number) above (Inclusion path.now)) self.now result }
    {
        if path.is_empty() {
            return Err(ConfigKind::NoValue);
        }
        if includes_left == 0 {
            return Err(ConfigKind::IncludeTooDeep);
        }
        let path = self.variables.replace_variables(alloc, path)?;
        Ok(Some(relative_path(alloc, file, path.as_slice())?))
    }

    fn set(&mut self, alloc: Global, name: &[u8], value: &[u8]) -> NextFile
        ensures included { IfOk result (λ next. next ≡ None) }
        ensures readable { result ≢ Err ConfigKind.FileFault }
        ensures meaning { (env : Values) (above : Text) (includes_left : ℕ) (place : Place) →
            OutlineRepresents env above self.old
            → FollowsMeaning env above
            (meaning env includes_left place above (Setting name.now value.now)) self.new result }
    {
        let value = self.variables.replace_variables(alloc, value)?;
        self.variables.set(alloc, name, value)?;
        Ok(None)
    }

    fn header(&mut self, alloc: Global, file: &[u8], number: u64, name: &[u8]) -> NextFile
        ensures included { IfOk result (λ next. next ≡ None) }
        ensures readable { result ≢ Err ConfigKind.FileFault }
        ensures meaning { (env : Values) (above : Text) (includes_left : ℕ) →
            OutlineRepresents env above self.old
            → FollowsMeaning env above
            (meaning env includes_left (place file.now number) above (Heading name.now)) self.new result }
    {
        let section = Section {
            name: Bytes::from_slice(alloc, name)?,
            place: place(alloc, file, number)?,
            entries: Entries::new(alloc),
        };
        self.sections.push(section)?;
        Ok(None)
    }

    fn pair(
        &mut self,
        alloc: Global,
        file: &[u8],
        number: u64,
        key: &[u8],
        value: &[u8],
    ) -> NextFile
        ensures included { IfOk result (λ next. next ≡ None) }
        ensures readable { result ≢ Err ConfigKind.FileFault }
        ensures meaning { (env : Values) (above : Text) (includes_left : ℕ) →
            OutlineRepresents env above self.old
            → FollowsMeaning env above
            (meaning env includes_left (place file.now number) above (Pair key.now value.now))
            self.new result }
    {
        if self.sections.is_empty() {
            return Err(ConfigKind::EntryOutsideSection);
        }
        if value.is_empty() {
            return Err(ConfigKind::NoValue);
        }
        let entry = Entry {
            key: Bytes::from_slice(alloc, key)?,
            value: self.variables.replace_variables(alloc, value)?,
            place: place(alloc, file, number)?,
        };
        add_entry(&mut self.sections, entry)?;
        Ok(None)
    }
}

impl Outline {
    /// Returns the files that the SERVICE sections name by `Parsers_File`.
    pub fn parser_files(&self, alloc: Global) -> Result<Names, Memory>
        ensures { IfOk result (λ files. files ≡ parser_files self.now.sections.items) }
    {
        let mut files = Names::new(alloc);
        for section in &self.sections {
            add_files_of_section(alloc, section, &mut files)?;
        }
        Ok(files)
    }

    /// Returns all sections.
    pub fn into_sections(self) -> Sections
        ensures { result ≡ self.sections.items }
    {
        let Outline {
            variables,
            sections,
        } = self;
        drop(variables);
        Sections::from_vec(sections)
    }
}

/// Adds the files that a section names, if it is a SERVICE section.
fn add_files_of_section(alloc: Global, section: &Section, files: &mut Names) -> Result<(), Memory>
    ensures { OnOk result (files.new ≡ files.old ++ files_of_section section.now) }
{
    if !same_name(section.name.as_slice(), b"service") {
        return Ok(());
    }
    for entry in section.entries.as_slice() {
        add_file_of_entry(alloc, entry, files)?;
    }
    Ok(())
}

/// Adds the file that an entry names, if its key is `Parsers_File`.
fn add_file_of_entry(alloc: Global, entry: &Entry, files: &mut Names) -> Result<(), Memory>
    ensures { OnOk result (files.new ≡ files.old ++ files_of_entry entry.now) }
{
    if !same_name(entry.key.as_slice(), b"parsers_file") {
        return Ok(());
    }
    let file = relative_path(alloc, entry.place.file.as_slice(), entry.value.as_slice())?;
    files.push(file)?;
    Ok(())
}

/// Appends an entry to the last section.
fn add_entry(sections: &mut Vec<Section>, entry: Entry) -> Result<(), Memory>
    requires { 0 < vec_len sections.old }
    ensures { OnOk result (sections.new.items ≡ with_entry sections.old.items entry) }
{
    if let Some(section) = sections.last_mut() {
        section.entries.push(entry)?;
    }
    Ok(())
}

/// Returns the place of a line.
pub fn place(alloc: Global, file: &[u8], number: u64) -> Result<Place, Memory>
    ensures { IfOk result (λ at. at ≡ place file.now number) }
{
    Ok(Place {
        file: Bytes::from_slice(alloc, file)?,
        line: number,
    })
}

/// Returns the path of a file that another one names: relative to the folder of that one, unless it begins
/// with a slash.
pub fn relative_path(alloc: Global, file: &[u8], path: &[u8]) -> Result<Bytes, Memory>
    ensures { IfOk result (λ full. full ≡ relative_path file.now path.now) }
{
    let mut full = Bytes::new(alloc);
    if path.first() != Some(&b'/') {
        full.extend_from_slice(folder(file))?;
    }
    full.extend_from_slice(path)?;
    Ok(full)
}

/// Returns a path up to its last slash.
fn folder(path: &[u8]) -> &[u8]
    ensures { result.now ≡ folder path.now }
{
    let mut end = path.len();
    while end > 0 && path[end - 1] != b'/' {
        end -= 1;
    }
    &path[..end]
}
