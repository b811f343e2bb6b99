//! Configurations that are loaded, and what they set.

use crate::shelf::Shelf;
use crate::shown;
use fwd_base::{Bytes, Memory};
use fwd_config::{ConfigFault, Entry, Section, Sections, load};
use fwd_settings::{AllSettings, ends, settings};
use fwd_test_rows::{argument, put_bytes};
use std::alloc::Global;

/// The environment, in which one name stands twice.
const VARIABLES: &[(&str, &str)] = &[("HOST", "from env"), ("HOST", "later"), ("T", "outer")];

fn push_variable(
    alloc: Global,
    env: &mut Vec<(String, String)>,
    name: &str,
    value: &str,
) -> Result<(), Memory> {
    let name = String::from_str(alloc, name)?;
    env.push((name, String::from_str(alloc, value)?))?;
    Ok(())
}

fn environment(alloc: Global) -> Result<Vec<(String, String)>, Memory> {
    let mut env = Vec::new(alloc);
    for (name, value) in VARIABLES.iter() {
        push_variable(alloc, &mut env, name, value)?;
    }
    Ok(env)
}

/// What the first file loads.
fn sections(alloc: Global, files: &[Bytes]) -> Result<Result<Sections, ConfigFault>, Memory> {
    let env = environment(alloc)?;
    let mut shelf = Shelf { files, faults: 0 };
    Ok(load(alloc, &mut shelf, argument(files, 0), env.as_slice()))
}

fn put_entry(out: &mut String, entry: &Entry) -> Result<(), Memory> {
    let key = shown::text(&entry.key);
    let value = shown::text(&entry.value);
    let file = shown::text(&entry.place.file);
    let line = entry.place.line;
    write!(out, "{key}={value}@{file}:{line};")?;
    Ok(())
}

fn put_header(out: &mut String, section: &Section) -> Result<(), Memory> {
    let name = shown::text(&section.name);
    let file = shown::text(&section.place.file);
    let line = section.place.line;
    write!(out, "[{name} {file}:{line}]")?;
    Ok(())
}

fn put_section(out: &mut String, section: &Section) -> Result<(), Memory> {
    put_header(out, section)?;
    for entry in section.entries.as_slice() {
        put_entry(out, entry)?;
    }
    Ok(())
}

fn put_fault(out: &mut String, fault: &ConfigFault) -> Result<(), Memory> {
    let kind = fault.kind;
    let file = shown::text(&fault.place.file);
    let line = fault.place.line;
    write!(out, "{kind:?} at {file}:{line}")?;
    Ok(())
}

fn put_sections(out: &mut String, sections: &Sections) -> Result<(), Memory> {
    for section in sections.as_slice() {
        put_section(out, section)?;
    }
    Ok(())
}

fn put_load(alloc: Global, text: &mut String, files: &[Bytes]) -> Result<(), Memory> {
    match sections(alloc, files)? {
        Ok(sections) => put_sections(text, &sections),
        Err(fault) => put_fault(text, &fault),
    }
}

fn load_text(alloc: Global, files: &[Bytes]) -> Result<String, Memory> {
    let mut text = String::new(alloc);
    put_load(alloc, &mut text, files)?;
    Ok(text)
}

/// `load|PATH|BYTES|PATH|BYTES..`: the sections and entries of the first file with their places, or the
/// refusal.
pub fn put_loaded(alloc: Global, out: &mut String, files: &[Bytes]) -> Result<(), Memory> {
    let text = load_text(alloc, files)?;
    put_bytes(out, text.as_str().as_bytes())
}

fn put_all(alloc: Global, text: &mut String, sections: &Sections) -> Result<(), Memory> {
    match settings(alloc, sections) {
        Ok(all) => shown::settings(text, &all),
        Err(fault) => shown::refusal(text, &fault),
    }
}

fn put_set(alloc: Global, text: &mut String, files: &[Bytes]) -> Result<(), Memory> {
    match sections(alloc, files)? {
        Ok(sections) => put_all(alloc, text, &sections),
        Err(fault) => put_fault(text, &fault),
    }
}

fn set(alloc: Global, files: &[Bytes]) -> Result<String, Memory> {
    let mut text = String::new(alloc);
    put_set(alloc, &mut text, files)?;
    Ok(text)
}

/// `set|PATH|BYTES..`: what the first file sets, or the refusal.
pub fn put_settings(alloc: Global, out: &mut String, files: &[Bytes]) -> Result<(), Memory> {
    let text = set(alloc, files)?;
    put_bytes(out, text.as_str().as_bytes())
}

fn put_ends(alloc: Global, out: &mut String, all: &AllSettings) -> Result<(), Memory> {
    let ends = ends(alloc, all)?;
    shown::ends(out, &ends)
}

fn put_connected(alloc: Global, out: &mut String, sections: &Sections) -> Result<(), Memory> {
    match settings(alloc, sections) {
        Ok(all) => put_ends(alloc, out, &all),
        Err(fault) => shown::refusal(out, &fault),
    }
}

/// `endpoints|PATH|BYTES..`: what each input and output of the first file is connected to.
pub fn put_endpoints(alloc: Global, out: &mut String, files: &[Bytes]) -> Result<(), Memory> {
    match sections(alloc, files)? {
        Ok(sections) => put_connected(alloc, out, &sections),
        Err(fault) => put_fault(out, &fault),
    }
}
