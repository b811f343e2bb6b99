//! The state of one file after a crash, chosen by a pick.

ghost use Rattle.std.specs.Prelude.{◌≡◌, true, ◌<◌, ◌≤◌, ◌+◌, ◌^◌, ◌%◌, ◌==◌, ◌&&◌, not, if◌then◌else◌, slice_index, ℕ, List, length, IfOk, OnOk, Some, None};
ghost use Rattle.fwd_outside.specs.File.{overwritten};
ghost use Rattle.fwd_disk_mem.specs.Entry.{written_over};
ghost use Rattle.fwd_disk_mem.specs.Images.{mixed, variant, acted_file, fits_in, no_file, reach, prefix_after_mark};

use crate::content::Content;
use crate::entry::{BoxedEntry, MemEntry, calls_in};
use fwd_outside::Memory;
use std::alloc::Global;

/// A file and its post-crash state: as it reads, as it was at its last sync, and as the crash leaves it.
#[derive(Drop)]
pub struct ImageFile {
    pub there: bool,
    pub bytes: Content,
    pub base: Content,
    pub image: Option<Content>,
}

impl ImageFile {
    /// Returns the file that no call was about.
    pub fn absent(alloc: Global) -> Self
        ensures { result ≡ no_file }
    {
        ImageFile {
            there: false,
            bytes: Content::new(alloc),
            base: Content::new(alloc),
            image: None,
        }
    }
}

fn mixed_byte(base: &[u8], place: usize, byte: u8) -> u8
    ensures { result ≡ (if place % 2 == 0 then slice_index base.now place else byte) }
{
    if place % 2 != 0 {
        return byte;
    }
    if place < base.len() { base[place] } else { 0 }
}

fn mixed_bytes(alloc: Global, base: &[u8], at: usize, bytes: &[u8]) -> Result<Vec<u8>, Memory>
    requires { at < 2 ^ 63 }
    ensures { IfOk result (λ new. new.items ≡ mixed base.now at bytes.now) }
{
    let mut new = Vec::new(alloc);
    for i in 0..bytes.len() {
        new.push(mixed_byte(base, at + i, bytes[i]))?;
    }
    Ok(new)
}

// Returns the bytes that the crash leaves of a write that isn't durable.
fn variant_bytes(
    alloc: Global,
    pick: u64,
    base: &[u8],
    at: usize,
    bytes: &[u8],
) -> Result<Vec<u8>, Memory>
    requires { at < 2 ^ 63 }
    ensures { IfOk result (λ new. new.items ≡ variant pick base.now at bytes.now) }
{
    if pick == 2 {
        return Ok(vec![in alloc; 90; bytes.len()]?);
    }
    if pick == 3 {
        return mixed_bytes(alloc, base, at, bytes);
    }
    Ok(bytes.to_vec(alloc)?)
}

// Returns a durable file with these bytes.
fn durable_file(alloc: Global, bytes: &[u8]) -> Result<ImageFile, Memory>
    ensures { IfOk result (λ file. file ≡ record { there = true; bytes = bytes.now; base = bytes.now; image = Some bytes.now }) }
{
    Ok(ImageFile {
        there: true,
        bytes: Content::from_slice(alloc, bytes)?,
        base: Content::from_slice(alloc, bytes)?,
        image: Some(Content::from_slice(alloc, bytes)?),
    })
}

// Returns the post-crash state after a write that isn't durable.
fn image_after_write(
    alloc: Global,
    pick: u64,
    base: &[u8],
    image: Option<Content>,
    at: usize,
    bytes: &[u8],
) -> Result<Option<Content>, Memory>
    requires { at < 2 ^ 63 }
    ensures { IfOk result (λ new. new ≡ (if pick == 0 then image else written_over at (variant pick base.now at bytes.now) image)) }
{
    if pick == 0 {
        return Ok(image);
    }
    match image {
        Some(image) => {
            let mut image = image;
            let new = variant_bytes(alloc, pick, base, at, bytes)?;
            image.write(at, &new)?;
            Ok(Some(image))
        }
        None => Ok(None),
    }
}

fn bytes_after_write(old: Content, at: usize, bytes: &[u8], ok: bool) -> Result<Content, Memory>
    ensures { IfOk result (λ new. new ≡ (if ok then overwritten old at bytes.now else old)) }
{
    let mut new = old;
    if !ok {
        return Ok(new);
    }
    new.write(at, bytes)?;
    Ok(new)
}

// Returns the file after a write, successful or failed.
fn file_after_write(
    alloc: Global,
    pick: u64,
    file: ImageFile,
    at: u64,
    bytes: &[u8],
    ok: bool,
) -> Result<ImageFile, Memory>
    ensures { IfOk result (λ new. new ≡ (if fits_in file at then record file { bytes = if ok then overwritten file.bytes at bytes.now else file.bytes; image = if pick == 0 then file.image else written_over at (variant pick file.base at bytes.now) file.image } else file)) }
{
    if !file.there {
        return Ok(file);
    }
    if at > file.bytes.as_slice().len() as u64 {
        return Ok(file);
    }
    let ImageFile {
        there,
        bytes: old,
        base,
        image,
    } = file;
    let image = image_after_write(alloc, pick, base.as_slice(), image, at as usize, bytes)?;
    let bytes = bytes_after_write(old, at as usize, bytes, ok)?;
    Ok(ImageFile {
        there,
        bytes,
        base,
        image,
    })
}

// Returns the file after a sync. An `ok` sync makes an existing file durable.
fn after_sync(alloc: Global, file: ImageFile, ok: bool) -> Result<ImageFile, Memory>
    ensures { IfOk result (λ new. new ≡ (if ok && file.there then record file { base = file.bytes; image = Some file.bytes } else file)) }
{
    if !ok {
        return Ok(file);
    }
    if !file.there {
        return Ok(file);
    }
    let base = Content::from_slice(alloc, file.bytes.as_slice())?;
    let image = Some(Content::from_slice(alloc, file.bytes.as_slice())?);
    let ImageFile {
        there,
        bytes,
        base: _,
        image: _,
    } = file;
    Ok(ImageFile {
        there,
        bytes,
        base,
        image,
    })
}

// Returns the file after a removal, successful or failed.
fn after_remove(pick: u64, file: ImageFile, ok: bool) -> ImageFile
    ensures { result ≡ (if file.there then record file { there = not ok; image = if ok then None else if pick == 0 then file.image else None } else file) }
{
    if !file.there {
        return file;
    }
    let ImageFile {
        there: _,
        bytes,
        base,
        image,
    } = file;
    if ok {
        return ImageFile {
            there: false,
            bytes,
            base,
            image: None,
        };
    }
    if pick == 0 {
        return ImageFile {
            there: true,
            bytes,
            base,
            image,
        };
    }
    ImageFile {
        there: true,
        bytes,
        base,
        image: None,
    }
}

// Returns the file after a failed creation.
fn after_failed_place(
    alloc: Global,
    pick: u64,
    file: ImageFile,
    bytes: &[u8],
) -> Result<ImageFile, Memory>
    ensures { IfOk result (λ new. new ≡ (if file.there then file else record file { base = bytes.now; image = if pick == 0 then None else Some bytes.now })) }
{
    if file.there {
        return Ok(file);
    }
    let base_now = Content::from_slice(alloc, bytes)?;
    let image_now = Content::from_slice(alloc, bytes)?;
    let ImageFile {
        there,
        bytes,
        base: _,
        image: _,
    } = file;
    if pick == 0 {
        return Ok(ImageFile {
            there,
            bytes,
            base: base_now,
            image: None,
        });
    }
    Ok(ImageFile {
        there,
        bytes,
        base: base_now,
        image: Some(image_now),
    })
}

/// Returns the file after a call on it.
pub fn file_after(
    alloc: Global,
    pick: u64,
    file: ImageFile,
    call: &MemEntry,
) -> Result<ImageFile, Memory>
    ensures { IfOk result (λ new. new ≡ acted_file pick file call.now) }
{
    match call {
        MemEntry::Place(_, bytes, ok) => {
            if *ok {
                durable_file(alloc, bytes.as_slice())
            } else {
                after_failed_place(alloc, pick, file, bytes.as_slice())
            }
        }
        MemEntry::WriteAt(_, at, bytes, ok) => file_after_write(
            alloc,
            pick,
            file,
            *at,
            bytes.as_slice(),
            *ok,
        ),
        MemEntry::Sync(_, ok) => after_sync(alloc, file, *ok),
        MemEntry::Remove(_, ok) => Ok(after_remove(pick, file, *ok)),
        MemEntry::Preset(_, bytes) => durable_file(alloc, bytes.as_slice()),
        MemEntry::Read(_, _, _, _) => Ok(file),
        MemEntry::List(_, _) => Ok(file),
        MemEntry::FailAt(_) => Ok(file),
    }
}

/// Returns the length of the prefix with `n` calls; all if there are fewer.
fn reach_of(n: u64, calls: &[BoxedEntry]) -> usize
    ensures reach { result ≡ reach n calls.now }
    ensures within { result ≤ length calls.now }
{
    let mut left = n;
    for i in 0..calls.len() {
        if calls_in(calls[i].entry()) == 1 {
            if left == 0 {
                return i;
            }
            left -= 1;
        }
    }
    calls.len()
}

/// Returns the prefix of `calls` that ends `n` calls after the mark.
pub fn prefix_until(calls: &[BoxedEntry], mark: usize, n: u64) -> &[BoxedEntry]
    ensures { result.now ≡ prefix_after_mark mark n calls.now }
{
    if mark > calls.len() {
        return calls;
    }
    let end = mark + reach_of(n, &calls[mark..]);
    &calls[..end]
}
