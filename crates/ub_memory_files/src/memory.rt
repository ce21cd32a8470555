ghost use Rattle.std.specs.Prelude.{◌≡◌, ◌≢◌, ◌≤◌, ◌⊎◌, ◌↔◌, ℕ, List, [], ◌∷◌, Some, IfOk, IfSome, IfErr, OnErr, OnOk, IsErrOf};
ghost use Rattle.ub_files.specs.Clock.{IsSameFolder, Runs};
ghost use Rattle.ub_files.specs.Files.{bytes, counted, counted_open, pages, untold, AreRead, ReadsFile};
ghost use Rattle.ub_memory_files.specs.Memory.{clock_in_memory, facts_in_memory, held_in, left_as, paths_told, IsPut};
ghost use Rattle.ub_memory_files.specs.Tables.{IsSeenAs};

use crate::entries::{Entry, MemFile, put, read_text, table_at};
use crate::tables::{MemTable, change_at, keep_at, make_at, open_at};
use crate::texts::MemText;
use std::alloc::{AllocError, Global};
use ub_files::{Files, OpenFault};
use ub_journal::{Place, TornPlace};
use ub_store::{MemStore, Pages, StoreFault};

/// Files in memory, for a program that has no others, and for tests: texts and table files by their paths. What each path holds is
/// told, but for a table file beside which a journal stands, and for one at which a call has failed. They are honest. A path that holds
/// nothing is Device, and so is a text that is opened as a table file, or a table file that is read as a text; a table file is made
/// anew in the place of a text. Standard input is the text at the path `-`, which is used up by reading, and by opening it to be read. Which
/// paths were read is told for as long as there was memory to keep them. A text that is opened to be read is handed out as a copy.
///
/// A table file that is opened is handed out as a copy of what is seen there, as another process would find it: so it can be opened as
/// often as memory allows, and holds what it held until a store is kept. Where a call of the copy fails, then what was done up to
/// there is what the path holds, as a crash at that moment would leave what is seen. Of a crash of the program that has them it is told
/// only that it leaves what they hold now: for memory no time goes by.
#[derive(Drop)]
pub struct MemFiles {
    alloc: Global,
    entries: Vec<Entry>,
    reads: u64,
    tables: u64,
    readings: Option<Vec<String>>,
    due: u64,
    readable: usize,
}

impl MemFiles {
    /// No files. It takes no memory.
    pub fn new(alloc: Global) -> MemFiles
        ensures { ⟦<MemFiles as Files>⟧.facts result ≡ facts_in_memory [] 0 0 (Some []) }
    {
        MemFiles {
            alloc,
            entries: Vec::new(alloc),
            reads: 0,
            tables: 0,
            readings: Some(Vec::new(alloc)),
            due: 0,
            readable: usize::MAX,
        }
    }

    /// Puts a text at this path, in the place of what was there. Where memory is refused nothing changes.
    pub fn put_text(&mut self, path: &str, text: Vec<u8>) -> Result<(), AllocError>
        ensures put { OnOk result (IsPut path.now (bytes text.items)
            (⟦<MemFiles as Files>⟧.facts self.old) (⟦<MemFiles as Files>⟧.facts self.new)) }
        ensures kept { OnErr result
            (⟦<MemFiles as Files>⟧.facts self.new ≡ ⟦<MemFiles as Files>⟧.facts self.old) }
    {
        put(self.alloc, &mut self.entries, path, MemFile::Text(text))
    }

    /// Puts a table file of these pages at this path, in the place of what was there. Where memory is refused nothing changes.
    pub fn put_table(&mut self, path: &str, store: MemStore) -> Result<(), AllocError>
        ensures put { OnOk result (IsPut path.now (pages store)
            (⟦<MemFiles as Files>⟧.facts self.old) (⟦<MemFiles as Files>⟧.facts self.new)) }
        ensures kept { OnErr result
            (⟦<MemFiles as Files>⟧.facts self.new ≡ ⟦<MemFiles as Files>⟧.facts self.old) }
    {
        let place = TornPlace::new(self.alloc, store.into_pages(), 0, None, true);
        put(self.alloc, &mut self.entries, path, MemFile::Table(place))
    }

    /// Puts a table file at this path that is seen as it is at this place, in the place of what was there: nothing is told of it. One that
    /// isn't honest can't be opened. Where memory is refused nothing changes.
    pub fn put_place(&mut self, path: &str, place: TornPlace) -> Result<(), AllocError>
        ensures put { OnOk result (IsPut path.now untold
            (⟦<MemFiles as Files>⟧.facts self.old) (⟦<MemFiles as Files>⟧.facts self.new)) }
        ensures kept { OnErr result
            (⟦<MemFiles as Files>⟧.facts self.new ≡ ⟦<MemFiles as Files>⟧.facts self.old) }
    {
        put(self.alloc, &mut self.entries, path, MemFile::Left(place))
    }

    /// The place of the table file at this path, to look at it, if the path holds one.
    pub fn table(&self, path: &str) -> Option<&TornPlace>
        ensures { IfSome result (λ place.
            IsSeenAs ((⟦<MemFiles as Files>⟧.facts self.now).holds path.now)
            (⟦<TornPlace as Place>⟧.facts place.now).seen) }
    {
        table_at(self.entries.as_slice(), path)
    }

    /// Lets the k-th call of each place that is handed out from here on fail, or none where k is 0.
    pub fn fail_at(&mut self, k: u64)
        ensures { ⟦<MemFiles as Files>⟧.facts self.new ≡ ⟦<MemFiles as Files>⟧.facts self.old }
    {
        self.due = k;
    }

    /// Lets each reader of a text that is handed out from here on give so many bytes, and then fail.
    pub fn fail_texts_after(&mut self, bytes: usize)
        ensures { ⟦<MemFiles as Files>⟧.facts self.new ≡ ⟦<MemFiles as Files>⟧.facts self.old }
    {
        self.readable = bytes;
    }
}

// The paths that were read, and then this one; none are told where memory for it is refused.
fn noted(alloc: Global, readings: Option<Vec<String>>, path: &str) -> Option<Vec<String>>
    ensures { AreRead (path.now ∷ []) (paths_told readings) (paths_told result) }
{
    let mut paths = readings?;
    let name = String::from_str(alloc, path).ok()?;
    paths.push(name).ok()?;
    Some(paths)
}

// A count of failures after a call with this answer.
fn count_fault<T>(count: u64, answer: &Result<T, StoreFault>) -> u64
    ensures { result ≡ counted answer.now count }
{
    match answer {
        Err(StoreFault::Device) => count.saturating_add(1),
        _ => count,
    }
}

// The same after one that changes or makes a table file.
fn count_open<T>(count: u64, answer: &Result<T, OpenFault>) -> u64
    ensures { result ≡ counted_open answer.now count }
{
    match answer {
        Err(OpenFault::Store(StoreFault::Device)) => count.saturating_add(1),
        _ => count,
    }
}

impl Files for MemFiles {
    type Store = MemTable;

    type Text = MemText;

    ghost facts = { λ files. facts_in_memory files.entries.items files.reads
        files.tables (paths_told files.readings) };

    ghost clock = { λ files. clock_in_memory files.entries.items };

    ghost law = { λ files honest. record {
      counts_now = λ t c earlier left. left;
      only_now = λ c left. left;
      lasting = λ path c left told. left_as (held_in files.entries.items path) (c path) (left path told);
    } };

    /// The text at this path. Device comes exactly where it holds no text. At a refusal each path holds what it did, standard input
    /// too.
    fn read(&mut self, path: &str) -> Result<Vec<u8>, StoreFault>
        ensures text { IfOk result (λ text.
            held_in self.old.entries.items path.now ≡ bytes text.items) }
        ensures device { IsErrOf result StoreFault.Device
            ↔ ((text : List ℕ) → held_in self.old.entries.items path.now ≢ bytes text) }
        ensures faults { IfErr result (λ fault.
            (fault ≡ StoreFault.Device) ⊎ (fault ≡ StoreFault.Memory)) }
        ensures effect { ReadsFile path.now (⟦<MemFiles as Files>⟧.facts self.old)
            (⟦<MemFiles as Files>⟧.facts self.new) result }
        ensures crash { Runs IsSameFolder (⟦<MemFiles as Files>⟧.facts self.old)
            (⟦<MemFiles as Files>⟧.clock self.old) (⟦<MemFiles as Files>⟧.clock self.new) }
        ensures kept { OnErr result ((other : List ℕ)
            → held_in self.new.entries.items other ≡ held_in self.old.entries.items other) }
    {
        self.readings = noted(self.alloc, self.readings.take(), path);
        let read = read_text(self.alloc, self.entries.as_mut_slice(), path);
        self.reads = count_fault(self.reads, &read);
        read
    }

    fn open_text(&mut self, path: &str) -> Result<MemText, StoreFault> {
        match self.read(path) {
            Ok(bytes) => Ok(MemText::new(bytes, self.readable)),
            Err(fault) => Err(fault),
        }
    }

    fn close_text(&mut self, path: &str, text: MemText) -> Result<(), StoreFault> {
        let _ = path;
        let ended = text.end();
        self.reads = count_fault(self.reads, &ended);
        ended
    }

    fn open(&mut self, path: &str) -> Result<MemTable, StoreFault> {
        let opened = open_at(self.alloc, self.entries.as_slice(), path, self.due);
        self.tables = count_fault(self.tables, &opened);
        opened
    }

    fn change(&mut self, path: &str) -> Result<MemTable, OpenFault> {
        let opened = change_at(self.alloc, self.entries.as_mut_slice(), path, self.due);
        self.tables = count_open(self.tables, &opened);
        opened
    }

    fn keep(&mut self, path: &str, store: MemTable) -> Result<(), StoreFault> {
        let kept = keep_at(self.alloc, &mut self.entries, path, store);
        self.tables = count_fault(self.tables, &kept);
        kept
    }

    fn make<P: Pages>(&mut self, path: &str, pages: &P) -> Result<(), OpenFault> {
        let made = make_at(self.alloc, &mut self.entries, path, pages, self.due);
        self.tables = count_open(self.tables, &made);
        made
    }

    /// Lets the store go.
    fn put_back(&mut self, path: &str, store: MemTable) {
        let _ = (path, store);
    }
}
