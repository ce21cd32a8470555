ghost use Rattle.std.specs.Prelude.{◌≡◌, ◌<◌, ◌⊎◌, ◌↔◌, ◌*◌, ◌/◌, ◌%◌, Ok, Err, OnOk, OnErr, MatchResult, IfOk, IfErr, IsOk, IsTrue, true, false};
ghost use Rattle.ub_file.specs.Host.{facts_of_view, host_view, opened_by, AsksInPlace, IsUnfailed};
ghost use Rattle.ub_file.specs.Medium.{bytes, Empties, IsStoreSize};
ghost use Rattle.ub_file.specs.Raw.{with_refusal, IsUntouched, SetsLength};
ghost use Rattle.ub_store.specs.Facts.{counted, page_count, raised, Extends, IsPage, Reads, Syncs, WritesAt};

use crate::medium::{Medium, PAGE_BYTES};
use crate::raw::RawFile;
use crate::store::FileStore;
use crate::system::{Access, Opened, SystemFile, opened_by, system_file, way};
use std::fs::{OpenFile, OpenOptions};
use std::io;
use std::marker::Model;
use std::os::unix::fs::FileExt;
use std::rt::Files;
use ub_store::{MAX_PAGES, Page, PageStore, StoreFault};

/// A file as a medium: page n is the 4096 bytes from byte 4096 * n on. A short read or write is a failure.
///
/// Over an honest file all that a medium promises is proved, and that each call of the file is made once.
#[derive(Drop)]
pub struct HostFile<R: RawFile> {
    file: R,
    length: u64,
    sure: bool,
    reads: u64,
    writes: u64,
    opened: Opened,
    changes: u64,
    why: Option<io::Error>,
    unwritable: Option<io::Error>,
}

/// Why there is no store in a file: a fault, and the system's reason where it gave one.
#[derive(Clone, Copy)]
pub struct Refusal {
    pub fault: StoreFault,
    pub why: Option<io::Error>,
}

impl<R: RawFile> Model for HostFile<R> {
    ghost use Rattle.std.specs.Prelude.{IsTrue};
    ghost use Rattle.ub_file.specs.Host.{HostView, host_code, host_view, IsTold};

    ghost Value = { HostView R };

    ghost coded = { host_code R.code };

    ghost view = { λ f. host_view f.file f.length f.sure f.reads f.writes f.opened f.changes };

    ghost invariant = { λ f. IsTrue (R.facts f.file).honest
        → IsTold (R.facts f.file) f.length f.sure f.reads f.writes f.changes };
}

/// Opens a file for reading and writing, or for reading alone where that is refused: each write is then a failure. It neither
/// makes the file nor changes it. The system's reason comes where there is no such file or it refuses it.
pub fn open<R: Files>(rt: &R, path: &str) -> io::Result<HostFile<SystemFile<R::File>>>
where
    R::File: FileExt,
    ensures unfailed { IfOk result (λ file.
        IsUnfailed (⟦<HostFile<SystemFile<R::File>> as Medium>⟧.facts file)) }
    ensures found { IfOk result (λ file. (file.opened ≡ Opened.Found) × (file.changes ≡ 0)) }
{
    let why = match open_as(rt, &way(Opened::Found, Access::ReadAndWrite), path) {
        Ok(file) => return Ok(file),
        Err(why) => why,
    };
    match open_as(rt, &way(Opened::Found, Access::Read), path) {
        Ok(file) => Ok(file.unwritable(why)),
        Err(_) => Err(why),
    }
}

/// Opens a file for reading and writing, or makes one with no bytes where there is none; one that there is stays as it was. The
/// system's reason comes where it refuses it.
pub fn open_or_make<R: Files>(rt: &R, path: &str) -> io::Result<HostFile<SystemFile<R::File>>>
where
    R::File: FileExt,
    ensures unfailed { IfOk result (λ file.
        IsUnfailed (⟦<HostFile<SystemFile<R::File>> as Medium>⟧.facts file)) }
    ensures made { IfOk result (λ file. (file.opened ≡ Opened.Made) × (file.changes ≡ 0)) }
{
    open_as(rt, &way(Opened::Made, Access::ReadAndWrite), path)
}

/// The store in a file, which is opened, and of which no call has failed yet. Device comes where there is no such file or the
/// system refuses it, BadSize where it is no whole number of pages or has more of them than a store. The file was found, and
/// stays as it was.
pub fn open_store<R: Files>(
    rt: &R,
    path: &str,
) -> Result<FileStore<HostFile<SystemFile<R::File>>>, Refusal>
where
    R::File: FileExt,
    ensures faults { IfErr result (λ refusal.
        (refusal.fault ≡ StoreFault.Device) ⊎ (refusal.fault ≡ StoreFault.BadSize)) }
    ensures unfailed { IfOk result (λ store.
        IsUnfailed (⟦<FileStore<HostFile<SystemFile<R::File>>> as PageStore>⟧.facts store)) }
    ensures found { IfOk result (λ store. (store.opened ≡ Opened.Found) × (store.changes ≡ 0)) }
{
    match open(rt, path) {
        Ok(file) => store_in(file),
        Err(why) => Err(failed(Some(why))),
    }
}

/// A store with no pages in a file, which is emptied, or made where there is none; no call of it has failed yet. Device comes where
/// the system refuses it.
pub fn create_store<R: Files>(
    rt: &R,
    path: &str,
) -> Result<FileStore<HostFile<SystemFile<R::File>>>, Refusal>
where
    R::File: FileExt,
    ensures faults { IfErr result (λ refusal. refusal.fault ≡ StoreFault.Device) }
    ensures none { IfOk result (λ store.
        page_count (⟦<FileStore<HostFile<SystemFile<R::File>>> as PageStore>⟧.facts store) ≡ 0) }
    ensures unfailed { IfOk result (λ store.
        IsUnfailed (⟦<FileStore<HostFile<SystemFile<R::File>>> as PageStore>⟧.facts store)) }
    ensures made { IfOk result (λ store. (store.opened ≡ Opened.Made) × (store.changes ≡ 1)) }
{
    let mut file = match open_or_make(rt, path) {
        Ok(file) => file,
        Err(why) => return Err(failed(Some(why))),
    };
    match file.empty() {
        Ok(()) => store_in(file),
        Err(_) => Err(failed(file.why())),
    }
}

// That the system failed, and its reason.
fn failed(why: Option<io::Error>) -> Refusal
    ensures { result.fault ≡ StoreFault.Device }
{
    Refusal {
        fault: StoreFault::Device,
        why,
    }
}

// The store in a file that was opened. BadSize comes exactly where it is none.
fn store_in<R: RawFile>(file: HostFile<R>) -> Result<FileStore<HostFile<R>>, Refusal>
    ensures size { IsOk result ↔ IsStoreSize
        (bytes (facts_of_view R.facts file) (file.length % 4096)) }
    ensures opened { IfOk result (λ store. store ≡ file) }
    ensures faults { IfErr result (λ refusal. refusal.fault ≡ StoreFault.BadSize) }
{
    match FileStore::open(file) {
        Ok(store) => Ok(store),
        Err(refused) => Err(Refusal {
            fault: refused.fault,
            why: None,
        }),
    }
}

// Opens a file in this way, and asks for its length. A folder, which can be opened for reading, is no file.
fn open_as<R: Files>(
    rt: &R,
    how: &OpenOptions,
    path: &str,
) -> io::Result<HostFile<SystemFile<R::File>>>
where
    R::File: FileExt,
    requires kept { AsksInPlace how.now }
    ensures unfailed { IfOk result (λ file.
        IsUnfailed (⟦<HostFile<SystemFile<R::File>> as Medium>⟧.facts file)) }
    ensures opened { IfOk result (λ file.
        (file.opened ≡ opened_by how.now) × (file.changes ≡ 0)) }
{
    let file = how.open(rt, path)?;
    let told = file.metadata()?;
    if told.is_dir() {
        return Err(io::Error::from(io::ErrorKind::IsADirectory));
    }
    let file = system_file(file, &told);
    Ok(HostFile::new(file, told.len(), opened_by(how)))
}

// The byte at which a page begins.
fn place(n: u32) -> u64
    ensures { result ≡ 4096 * n }
{
    PAGE_BYTES * u64::from(n)
}

// What a call came to: a refusal is Device, is counted, and its reason is kept.
fn tell(
    done: io::Result<()>,
    refusals: &mut u64,
    why: &mut Option<io::Error>,
) -> Result<(), StoreFault>
    ensures { MatchResult done
        (λ _. (result ≡ Ok tt) × (refusals.new ≡ refusals.old))
        (λ _. (result ≡ Err StoreFault.Device) × (refusals.new ≡ raised refusals.old 1)) }
{
    match done {
        Ok(()) => Ok(()),
        Err(error) => {
            *refusals = refusals.saturating_add(1);
            *why = Some(error);
            Err(StoreFault::Device)
        }
    }
}

impl<R: RawFile> HostFile<R> {
    /// The medium on a file that is so many bytes long, came to be open so, and hasn't been changed since.
    pub fn new(file: R, length: u64, opened: Opened) -> HostFile<R>
        requires untouched { IsTrue (R.facts file).honest → IsUntouched (R.facts file) length }
        ensures { result ≡ host_view file length true 0 0 opened 0 }
    {
        HostFile {
            file,
            length,
            sure: true,
            reads: 0,
            writes: 0,
            opened,
            changes: 0,
            why: None,
            unwritable: None,
        }
    }

    // The same, where the file was opened for reading alone for this reason.
    fn unwritable(mut self, why: io::Error) -> HostFile<R>
        ensures { result ≡ self }
    {
        self.unwritable = Some(why);
        self
    }

    /// The system's reason for the last call that it refused; of one that isn't a read, of a file that could be opened for
    /// reading alone, why it could.
    pub fn why(&self) -> Option<io::Error> {
        if self.writes == 0 || self.unwritable.is_none() {
            self.why
        } else {
            self.unwritable
        }
    }

    /// The file, as it is.
    pub fn into_file(self) -> R
        ensures { result ≡ self.file }
    {
        self.file
    }

    // Makes the file so many bytes long: cuts it, or adds zeros.
    fn set_length(&mut self, size: u64) -> Result<(), StoreFault>
        ensures honest { (R.facts self.new.file).honest ≡ (R.facts self.old.file).honest }
        ensures effect { IsTrue (R.facts self.old.file).honest
            → SetsLength size (R.facts self.old.file) (R.facts self.new.file) result }
        ensures fault { IfErr result (λ fault. fault ≡ StoreFault.Device) }
        ensures same { self.new ≡ record self.old {
          file = self.new.file;
          length = self.new.length;
          sure = self.new.sure;
          writes = with_refusal result self.old.writes;
          changes = raised self.old.changes 1;
        } }
        ensures set { OnOk result ((self.new.length ≡ size) × (self.new.sure ≡ true)) }
        ensures kept { OnErr result
            ((self.new.length ≡ self.old.length) × (self.new.sure ≡ false)) }
    {
        self.changes = self.changes.saturating_add(1);
        let done = tell(self.file.set_len(size), &mut self.writes, &mut self.why);
        self.sure = done.is_ok();
        if self.sure {
            self.length = size;
        }
        done
    }

    // Makes the file so many bytes long, which is as many whole pages: these stay.
    fn keep_pages(&mut self, size: u64) -> Result<(), StoreFault>
        requires as_many { size / 4096 ≡ self.old.length / 4096 }
        ensures fault { IfErr result (λ fault. fault ≡ StoreFault.Device) }
        ensures facts { facts_of_view R.facts self.new ≡ record (facts_of_view R.facts self.old) {
          failed_writes = counted result self.old.writes;
        } }
        ensures set { OnOk result ((self.new.length ≡ size) × (self.new.sure ≡ true)) }
        ensures kept { OnErr result (self.new.length ≡ self.old.length) }
        ensures opened { self.new.opened ≡ self.old.opened }
    {
        self.set_length(size)
    }

    // Cuts away what stands after the last whole page.
    fn cut_rest(&mut self) -> Result<(), StoreFault>
        ensures fault { IfErr result (λ fault. fault ≡ StoreFault.Device) }
        ensures facts { facts_of_view R.facts self.new ≡ record (facts_of_view R.facts self.old) {
          failed_writes = counted result self.old.writes;
        } }
        ensures cut { OnOk result (self.new.length ≡ 4096 * (self.old.length / 4096)) }
        ensures opened { self.new.opened ≡ self.old.opened }
        ensures none { self.old.length % 4096 ≡ 0
            → (result ≡ Ok tt) × (self.new ≡ self.old) }
    {
        if self.length % PAGE_BYTES == 0 {
            return Ok(());
        }
        self.keep_pages(self.length / PAGE_BYTES * PAGE_BYTES)
    }

    // Sets the length that is counted, where the file may have another one.
    fn set_surely(&mut self) -> Result<(), StoreFault>
        ensures fault { IfErr result (λ fault. fault ≡ StoreFault.Device) }
        ensures facts { facts_of_view R.facts self.new ≡ record (facts_of_view R.facts self.old) {
          failed_writes = counted result self.old.writes;
        } }
        ensures set { OnOk result (self.new.sure ≡ true) }
        ensures kept { self.new.length ≡ self.old.length }
        ensures opened { self.new.opened ≡ self.old.opened }
        ensures sure { IsTrue self.old.sure → (result ≡ Ok tt) × (self.new ≡ self.old) }
    {
        if self.sure {
            return Ok(());
        }
        self.keep_pages(self.length)
    }
}

impl<R: RawFile> Medium for HostFile<R> {
    ghost use Rattle.std.specs.Prelude.{◌%◌, false};
    ghost use Rattle.ub_file.specs.Host.{facts_of_view};

    ghost facts = { facts_of_view R.facts };

    ghost rest = { λ f. f.length % 4096 };

    ghost needs_memory = { false };

    fn length(&self) -> u64 {
        self.length
    }

    /// Reads the page of this number, which there is, by one call of the file.
    fn read_into(&mut self, n: u32, page: &mut Page) -> Result<(), StoreFault>
        requires there { n < page_count (facts_of_view R.facts self.old) }
        ensures page { OnOk result (IsPage (facts_of_view R.facts self.old) n page.new) }
        ensures faults { IfErr result (λ fault. fault ≡ StoreFault.Device) }
        ensures effect { Reads (facts_of_view R.facts self.old)
            (facts_of_view R.facts self.new) result }
        ensures rest { self.new.length % 4096 ≡ self.old.length % 4096 }
        ensures same { self.new ≡ record self.old {
          file = self.new.file;
          reads = with_refusal result self.old.reads;
        } }
    {
        tell(
            self.file.read_exact_at(page, place(n)),
            &mut self.reads,
            &mut self.why,
        )
    }

    /// Puts a page in the place of that of this number, which there is, by one call of the file.
    fn write_page(&mut self, n: u32, page: &Page) -> Result<(), StoreFault>
        requires there { n < page_count (facts_of_view R.facts self.old) }
        ensures faults { IfErr result (λ fault. fault ≡ StoreFault.Device) }
        ensures effect { WritesAt n page.now (facts_of_view R.facts self.old)
            (facts_of_view R.facts self.new) result }
        ensures rest { self.new.length % 4096 ≡ self.old.length % 4096 }
        ensures same { self.new ≡ record self.old {
          file = self.new.file;
          writes = with_refusal result self.old.writes;
          changes = raised self.old.changes 1;
        } }
    {
        self.changes = self.changes.saturating_add(1);
        tell(
            self.file.write_all_at(page, place(n)),
            &mut self.writes,
            &mut self.why,
        )
    }

    /// Puts a page of zeros after the last whole page, in the place of the rest, by one call of the file where there is no
    /// rest: it is cut away first.
    fn grow(&mut self) -> Result<(), StoreFault>
        requires room { page_count (facts_of_view R.facts self.old) < MAX_PAGES }
        ensures faults { IfErr result (λ fault. fault ≡ StoreFault.Device) }
        ensures effect { Extends (facts_of_view R.facts self.old)
            (facts_of_view R.facts self.new) result }
        ensures rest { OnOk result (self.new.length % 4096 ≡ 0) }
        ensures opened { self.new.opened ≡ self.old.opened }
        ensures once { self.old.length % 4096 ≡ 0 → self.new.changes ≡ raised self.old.changes 1 }
    {
        self.cut_rest()?;
        self.set_length(self.length + PAGE_BYTES)
    }

    /// Takes all bytes away, by one call of the file.
    fn empty(&mut self) -> Result<(), StoreFault>
        ensures faults { IfErr result (λ fault. fault ≡ StoreFault.Device) }
        ensures effect { Empties (facts_of_view R.facts self.old)
            (facts_of_view R.facts self.new) result }
        ensures rest { OnOk result (self.new.length % 4096 ≡ 0) }
        ensures opened { self.new.opened ≡ self.old.opened }
        ensures once { self.new.changes ≡ raised self.old.changes 1 }
    {
        self.set_length(0)
    }

    /// Makes what was written last. Where a call that set the length was refused, the file may be longer or shorter than is
    /// counted: then its length is set first.
    fn sync(&mut self) -> Result<(), StoreFault>
        ensures faults { IfErr result (λ fault. fault ≡ StoreFault.Device) }
        ensures effect { Syncs (facts_of_view R.facts self.old)
            (facts_of_view R.facts self.new) result }
        ensures rest { self.new.length % 4096 ≡ self.old.length % 4096 }
        ensures opened { self.new.opened ≡ self.old.opened }
        ensures unchanged { IsTrue self.old.sure → self.new.changes ≡ self.old.changes }
    {
        self.set_surely()?;
        tell(self.file.sync_all(), &mut self.writes, &mut self.why)
    }
}
