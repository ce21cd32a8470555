ghost use Rattle.std.specs.Prelude.{◌≡◌, ◌≢◌, ◌<◌, ◌⊎◌, ◌↔◌, ℕ, List, [], length, IfOk, IfSome, IfErr, IsErrOf, IsOk, IsTrue, OnOk, OnErr, MatchOption, MatchResult, string_bytes};
ghost use Rattle.std.specs.Str.{bytes_eq};
ghost use Rattle.ub_files.specs.Files.{absent, bytes, untold};
ghost use Rattle.ub_memory_files.specs.Memory.{held_in, place_in, told, IsReadIn, IsSetTo};
ghost use Rattle.ub_memory_files.specs.Tables.{IsSeenAs};

use std::alloc::{AllocError, Global};
use std::mem;
use ub_journal::{Place, TornPlace};
use ub_store::StoreFault;
use ub_words::STANDARD_INPUT;

/// What stands at a name.
#[derive(Drop)]
pub enum MemFile {
    /// The bytes of a text.
    Text(Vec<u8>),
    /// The place of a table file.
    Table(TornPlace),
    /// The place of a table file as a call has left it that failed, or that finished what such a call had left: nothing is told of it.
    Left(TornPlace),
}

/// A file and its name.
#[derive(Drop)]
pub struct Entry {
    /// The path at which it is.
    pub name: String,
    /// What it is.
    pub file: MemFile,
}

// Whether a name is this path.
fn is_named(entry: &Entry, path: &str) -> bool
    ensures { result ≡ bytes_eq (string_bytes entry.now.name) path.now }
{
    entry.name.as_str() == path
}

// Where the first file of this name stands.
fn place_of(entries: &[Entry], path: &str) -> Option<usize>
    ensures place { result ≡ place_in entries.now path.now }
    ensures within { IfSome result (λ place. place < length entries.now) }
{
    let mut place = 0usize;
    for entry in entries {
        if is_named(entry, path) {
            return Some(place);
        }
        place += 1;
    }
    None
}

/// The file at this path, if there is one.
pub fn file_at<'a>(entries: &'a [Entry], path: &str) -> Option<&'a MemFile>
    ensures { MatchOption result (held_in entries.now path.now ≡ absent)
        (λ file. held_in entries.now path.now ≡ told file.now) }
{
    match place_of(entries, path) {
        Some(place) => Some(&entries[place].file),
        None => None,
    }
}

// The text of a file, if it is one.
fn text_of(file: &MemFile) -> Option<&[u8]>
    ensures { MatchOption result
        ((text : List ℕ) → told file.now ≢ bytes text)
        (λ text. told file.now ≡ bytes text.now) }
{
    match file {
        MemFile::Text(text) => Some(text.as_slice()),
        MemFile::Table(_) | MemFile::Left(_) => None,
    }
}

// The text at this path, if it holds one.
fn text_at<'a>(entries: &'a [Entry], path: &str) -> Option<&'a [u8]>
    ensures { MatchOption result
        ((text : List ℕ) → held_in entries.now path.now ≢ bytes text)
        (λ text. held_in entries.now path.now ≡ bytes text.now) }
{
    text_of(file_at(entries, path)?)
}

/// The place of the table file at this path, if it holds one.
pub fn table_at<'a>(entries: &'a [Entry], path: &str) -> Option<&'a TornPlace>
    ensures { IfSome result (λ place. IsSeenAs (held_in entries.now path.now)
        (⟦<TornPlace as Place>⟧.facts place.now).seen) }
{
    match file_at(entries, path)? {
        MemFile::Table(place) | MemFile::Left(place) => Some(place),
        MemFile::Text(_) => None,
    }
}

/// Whether the path holds a table file of which nothing is told.
pub fn is_left(entries: &[Entry], path: &str) -> bool
    ensures { IsTrue result → held_in entries.now path.now ≡ untold }
{
    match file_at(entries, path) {
        Some(MemFile::Left(_)) => true,
        _ => false,
    }
}

// A copy of the text at this path. Device comes exactly where it holds none.
fn copy_text(alloc: Global, entries: &[Entry], path: &str) -> Result<Vec<u8>, StoreFault>
    ensures text { IfOk result (λ text. held_in entries.now path.now ≡ bytes text.items) }
    ensures device { IsErrOf result StoreFault.Device
        ↔ ((text : List ℕ) → held_in entries.now path.now ≢ bytes text) }
    ensures faults { IfErr result (λ fault.
        (fault ≡ StoreFault.Device) ⊎ (fault ≡ StoreFault.Memory)) }
{
    match text_at(entries, path) {
        Some(text) => Vec::from_slice(alloc, text).map_err(|_| StoreFault::Memory),
        None => Err(StoreFault::Device),
    }
}

/// Exchanges the file at this path for another one, or hands that back where it holds none.
pub fn exchange(entries: &mut [Entry], path: &str, file: MemFile) -> Result<MemFile, MemFile>
    ensures { MatchResult result
        (λ was. (held_in entries.old path.now ≡ told was)
        × IsSetTo path.now (told file) entries.old entries.new)
        (λ back. (back ≡ file) × (held_in entries.old path.now ≡ absent)
        × (entries.new ≡ entries.old)) }
{
    match place_of(entries, path) {
        Some(place) => Ok(mem::replace(&mut entries[place].file, file)),
        None => Err(file),
    }
}

// Puts a file at a path that holds nothing.
fn add(alloc: Global, entries: &mut Vec<Entry>, path: &str, file: MemFile) -> Result<(), AllocError>
    requires free { held_in entries.old.items path.now ≡ absent }
    ensures put { OnOk result (IsSetTo path.now (told file) entries.old.items entries.new.items) }
    ensures kept { OnErr result (entries.new.items ≡ entries.old.items) }
{
    let name = String::from_str(alloc, path)?;
    entries.push(Entry { name, file })?;
    Ok(())
}

/// Puts a file at this path, in the place of what was there. Memory is taken where the path held nothing.
pub fn put(
    alloc: Global,
    entries: &mut Vec<Entry>,
    path: &str,
    file: MemFile,
) -> Result<(), AllocError>
    ensures put { OnOk result (IsSetTo path.now (told file) entries.old.items entries.new.items) }
    ensures kept { OnErr result (entries.new.items ≡ entries.old.items) }
    ensures room { held_in entries.old.items path.now ≢ absent → IsOk result }
{
    match exchange(entries.as_mut_slice(), path, file) {
        Ok(_) => Ok(()),
        Err(file) => add(alloc, entries, path, file),
    }
}

// Takes the text at this path, if it holds one, and leaves none of its bytes there.
fn use_up(alloc: Global, entries: &mut [Entry], path: &str) -> Option<Vec<u8>>
    ensures { MatchOption result
        (((text : List ℕ) → held_in entries.old path.now ≢ bytes text)
        × IsSetTo path.now (held_in entries.old path.now) entries.old entries.new)
        (λ text. (held_in entries.old path.now ≡ bytes text.items)
        × IsSetTo path.now (bytes []) entries.old entries.new) }
{
    match exchange(entries, path, MemFile::Text(Vec::new(alloc))) {
        Ok(MemFile::Text(text)) => Some(text),
        Ok(other) => {
            let _ = exchange(entries, path, other);
            None
        }
        Err(_) => None,
    }
}

/// The text at this path, which standard input then holds no more. Device comes exactly where it holds none.
pub fn read_text(alloc: Global, entries: &mut [Entry], path: &str) -> Result<Vec<u8>, StoreFault>
    ensures text { IfOk result (λ text. held_in entries.old path.now ≡ bytes text.items) }
    ensures device { IsErrOf result StoreFault.Device
        ↔ ((text : List ℕ) → held_in entries.old path.now ≢ bytes text) }
    ensures faults { IfErr result (λ fault.
        (fault ≡ StoreFault.Device) ⊎ (fault ≡ StoreFault.Memory)) }
    ensures effect { IsReadIn path.now entries.old entries.new result }
{
    if path == STANDARD_INPUT {
        use_up(alloc, entries, path).ok_or(StoreFault::Device)
    } else {
        copy_text(alloc, entries, path)
    }
}
