ghost use Rattle.std.specs.Prelude.{◌≡◌, ◌≤◌, ◌⊎◌, Err, IfErr, IfOk, length};
ghost use Rattle.ub_files.specs.Files.{counted, counted_open, raised_by};
ghost use Rattle.ub_host_files.specs.Host.{facts_of_host};

use crate::lock::Lock;
use crate::missed::{Deed, Missed};
use crate::opening::{Purpose, open_locked};
use crate::place::{HostPlace, Kept, Reasons, journal_beside};
use crate::text::HostText;
use std::alloc::Global;
use std::fs::{Metadata, OpenOptions};
use std::io::Eprint;
use std::os::fd::{AsFd, AsRawFd};
use std::os::unix::fs::FileExt;
use std::{fs, io, rt};
use ub_files::{Files, OpenFault};
use ub_journal::Place;
use ub_keeping::PlaceStore;
use ub_overlay::Overlay;
use ub_store::{Pages, StoreFault};
use ub_words::STANDARD_INPUT;

// How many bytes of standard input are kept at most: 16 MiB.
const MOST_KEPT: usize = 16_777_216;

// The system's number for memory that is refused.
const NO_MEMORY: i32 = 12;

/// How many calls failed, and what was missed last.
#[derive(Clone, Copy)]
struct Failures {
    reads: u64,
    tables: u64,
    missed: Option<Missed>,
}

impl Failures {
    // Counts a reading that the system refused, if it isn't for memory, and notes what was missed then.
    fn note_read(&mut self, path: &str, why: io::Error) -> StoreFault
        ensures faults { (result ≡ StoreFault.Device) ⊎ (result ≡ StoreFault.Memory) }
        ensures reads { self.new.reads ≡ raised_by result self.old.reads }
        ensures tables { self.new.tables ≡ self.old.tables }
    {
        let fault = fault_of(&why);
        if fault == StoreFault::Device {
            self.reads = self.reads.saturating_add(1);
            self.missed = Some(Missed::new(Deed::Read, name_of(path), why));
        }
        fault
    }

    // Counts a fault of a table file, if it is Device, and notes what was missed then.
    fn note(&mut self, fault: StoreFault, missed: Missed)
        ensures reads { self.new.reads ≡ self.old.reads }
        ensures tables { self.new.tables ≡ raised_by fault self.old.tables }
    {
        if fault == StoreFault::Device {
            self.tables = self.tables.saturating_add(1);
            self.missed = Some(missed);
        }
    }

    // Notes what was missed beside what was done, if something was.
    fn note_refused(&mut self, missed: Option<Missed>)
        ensures reads { self.new.reads ≡ self.old.reads }
        ensures tables { self.new.tables ≡ self.old.tables }
    {
        self.missed = missed.or(self.missed);
    }

    // The same of an opening to change or to make.
    fn note_open(&mut self, fault: OpenFault, missed: Missed)
        ensures reads { self.new.reads ≡ self.old.reads }
        ensures tables { self.new.tables ≡ counted_open {A = Unit {0}} (Err fault) self.old.tables }
    {
        match fault {
            OpenFault::Store(fault) => self.note(fault, missed),
            OpenFault::BadJournal => {}
        }
    }

    // The same of a place that isn't found. Device comes where the system refuses it, Memory where memory was refused.
    fn note_unfound(&mut self, deed: Deed, path: &str, why: io::Error) -> StoreFault
        ensures faults { (result ≡ StoreFault.Device) ⊎ (result ≡ StoreFault.Memory) }
        ensures reads { self.new.reads ≡ self.old.reads }
        ensures tables { self.new.tables ≡ raised_by result self.old.tables }
    {
        let fault = fault_of(&why);
        self.note(fault, Missed::new(deed, path, why));
        fault
    }
}

/// What is kept of standard input, and whether it is to be kept.
#[derive(Drop)]
struct Input {
    is_kept: bool,
    bytes: Option<Vec<u8>>,
}

impl Input {
    // Keeps these bytes of a file, if they are of standard input, and are to be kept and can be.
    fn keep(&mut self, alloc: Global, path: &str, bytes: &[u8]) {
        if self.is_kept && path == STANDARD_INPUT && bytes.len() <= MOST_KEPT {
            self.bytes = Vec::from_slice(alloc, bytes).ok();
        }
    }
}

/// The files of the system. What they hold is not told, and that they are honest is a premise. Standard input is read as the
/// system's device for it.
///
/// A table file is locked from its opening until its store is handed back: beside other programs that ask it, or, to be changed,
/// alone. Whoever has to wait for that says so on standard error.
#[derive(Drop)]
pub struct HostFiles<'r, R> {
    rt: &'r R,
    failures: Failures,
    input: Input,
}

impl<'r, R: rt::Files + AllocGlobal + Eprint> HostFiles<'r, R>
where
    R::File: FileExt + AsFd + AsRawFd + Lock,
{
    /// The files that this runtime reaches; none has failed yet.
    pub fn new(rt: &'r R) -> HostFiles<'r, R>
        ensures { ⟦<HostFiles<'r, R> as Files>⟧.facts result ≡ facts_of_host 0 0 }
    {
        HostFiles {
            rt,
            failures: Failures {
                reads: 0,
                tables: 0,
                missed: None,
            },
            input: Input {
                is_kept: false,
                bytes: None,
            },
        }
    }

    /// Keeps from now on a text that is read whole from standard input, which can't be read twice, where it isn't longer than 16 MiB and
    /// there is memory for it.
    pub fn keep_input(&mut self)
        ensures { ⟦<HostFiles<'r, R> as Files>⟧.facts self.new
            ≡ ⟦<HostFiles<'r, R> as Files>⟧.facts self.old }
    {
        self.input.is_kept = true;
    }

    /// Takes what was kept of standard input, if it was read and kept.
    pub fn take_input(&mut self) -> Option<Vec<u8>>
        ensures { ⟦<HostFiles<'r, R> as Files>⟧.facts self.new
            ≡ ⟦<HostFiles<'r, R> as Files>⟧.facts self.old }
    {
        self.input.bytes.take()
    }

    /// What couldn't be done with a file last, for people: with which one, and the system's reason.
    pub fn missed(&self) -> Option<Missed> {
        self.failures.missed
    }
}

// The file that is read at a path: at that of standard input, the system's device for it.
fn file_of(path: &str) -> &str {
    if path == STANDARD_INPUT {
        "/dev/stdin"
    } else {
        path
    }
}

// How people are told of that file.
fn name_of(path: &str) -> &str {
    if path == STANDARD_INPUT {
        "standard input"
    } else {
        path
    }
}

// A reader of the file at a path.
fn open_at<R: rt::Files + AllocGlobal>(rt: &R, path: &str) -> io::Result<HostText<R::File>> {
    match OpenOptions::new().read(true).open(rt, file_of(path)) {
        Ok(file) => HostText::new(rt.alloc(), file),
        Err(why) => Err(why),
    }
}

// What came of a reading, or that it was refused, which is counted.
fn told<T>(path: &str, reading: io::Result<T>, failures: &mut Failures) -> Result<T, StoreFault>
    ensures faults { IfErr result (λ fault.
        (fault ≡ StoreFault.Device) ⊎ (fault ≡ StoreFault.Memory)) }
    ensures reads { failures.new.reads ≡ counted result failures.old.reads }
    ensures tables { failures.new.tables ≡ failures.old.tables }
{
    match reading {
        Ok(found) => Ok(found),
        Err(why) => Err(failures.note_read(path, why)),
    }
}

// The same of a text, which is kept if it is to be.
fn take_text(
    alloc: Global,
    path: &str,
    text: io::Result<Vec<u8>>,
    input: &mut Input,
    failures: &mut Failures,
) -> Result<Vec<u8>, StoreFault>
    ensures faults { IfErr result (λ fault.
        (fault ≡ StoreFault.Device) ⊎ (fault ≡ StoreFault.Memory)) }
    ensures reads { failures.new.reads ≡ counted result failures.old.reads }
    ensures tables { failures.new.tables ≡ failures.old.tables }
{
    let bytes = told(path, text, failures)?;
    input.keep(alloc, path, bytes.as_slice());
    Ok(bytes)
}

// The place of a table file, opened for this purpose.
fn find<'r, R: rt::Files + AllocGlobal + Eprint>(
    rt: &'r R,
    path: &str,
    purpose: Purpose,
) -> io::Result<HostPlace<'r, R>>
where
    R::File: FileExt + AsFd + AsRawFd + Lock,
{
    HostPlace::new(rt, rt.alloc(), open_locked(rt, path, purpose)?)
}

// The same of one that is to be made. None where a journal stands there, and no table file: then none is made.
fn find_to_make<'r, R: rt::Files + AllocGlobal + Eprint>(
    rt: &'r R,
    path: &str,
) -> io::Result<Option<HostPlace<'r, R>>>
where
    R::File: FileExt + AsFd + AsRawFd + Lock,
{
    if is_journal_alone(rt, rt.alloc(), path) {
        return Ok(None);
    }
    match find(rt, path, Purpose::Make) {
        Ok(place) => Ok(Some(place)),
        Err(why) => Err(why),
    }
}

// Whether a journal stands where no table file does.
fn is_journal_alone<R: rt::Files>(rt: &R, alloc: Global, path: &str) -> bool {
    let told = rt.metadata(path);
    if !is_absent(&told) {
        return false;
    }
    match journal_beside(alloc, path) {
        Ok(name) => rt.metadata(name.as_str()).is_ok(),
        Err(_) => false,
    }
}

// Whether no file is there, of which the system told this.
fn is_absent(told: &io::Result<Metadata>) -> bool {
    match told {
        Ok(_) => false,
        Err(why) => why.kind() == io::ErrorKind::NotFound,
    }
}

// What a refusal of the system is.
fn fault_of(why: &io::Error) -> StoreFault
    ensures { (result ≡ StoreFault.Device) ⊎ (result ≡ StoreFault.Memory) }
{
    match why.kind() {
        io::ErrorKind::OutOfMemory => StoreFault::Memory,
        _ => StoreFault::Device,
    }
}

// What couldn't be done at a place, with the system's reason: where it gave none, memory was refused.
fn missed_at<P: Reasons>(deed: Deed, path: &str, place: &P) -> Missed {
    let why = place.why();
    Missed::new(
        deed,
        path,
        why.unwrap_or(io::Error::from_raw_os_error(NO_MEMORY)),
    )
}

// What became of changes that weren't put to the end, where this is what couldn't be done if none was put.
fn unkept_at<P: Reasons>(deed: Deed, path: &str, place: &P) -> Missed {
    match place.kept() {
        Kept::Nothing => missed_at(deed, path, place),
        Kept::Beside => missed_at(Deed::Finish, place.journal_name(), place),
        Kept::Whole => missed_at(Deed::Settle, path, place),
    }
}

// That this is so of a table file, where a call at its place was refused, as that of a page that couldn't be read.
fn refused_at<P: Reasons>(deed: Deed, path: &str, place: &P) -> Option<Missed> {
    Some(Missed::new(deed, path, place.why()?))
}

// What couldn't be done at a place that is put back: the changes that were held weren't kept, or the table file couldn't be used.
fn left_at<P: Reasons>(is_changed: bool, path: &str, place: &P) -> Option<Missed> {
    if is_changed && place.is_alone() {
        return Some(missed_at(Deed::Keep, path, place));
    }
    refused_at(Deed::Use, path, place)
}

// The store of a place that was found, to ask it.
fn ask_at<P: Place + Reasons>(
    alloc: Global,
    path: &str,
    found: io::Result<P>,
    failures: &mut Failures,
) -> Result<Overlay<PlaceStore<P>>, StoreFault>
    ensures fresh { IfOk result (λ store. store.failed ≡ 0) }
    ensures faults { IfErr result (λ fault. (fault ≡ StoreFault.Device)
        ⊎ ((fault ≡ StoreFault.BadSize) ⊎ (fault ≡ StoreFault.Memory))) }
    ensures reads { failures.new.reads ≡ failures.old.reads }
    ensures tables { failures.new.tables ≡ counted result failures.old.tables }
{
    let place = match found {
        Ok(place) => place,
        Err(why) => return Err(failures.note_unfound(Deed::Open, path, why)),
    };
    match ub_keeping::ask(alloc, place) {
        Ok(store) => Ok(store),
        Err(refused) => {
            failures.note(refused.fault, missed_at(Deed::Open, path, &refused.store));
            Err(refused.fault)
        }
    }
}

// The same, to change it.
fn change_at<P: Place + Reasons>(
    alloc: Global,
    path: &str,
    found: io::Result<P>,
    failures: &mut Failures,
) -> Result<Overlay<PlaceStore<P>>, OpenFault>
    ensures fresh { IfOk result (λ store. store.failed ≡ 0) }
    ensures faults { IfErr result (λ fault. (fault ≡ OpenFault.BadJournal)
        ⊎ ((fault ≡ OpenFault.Store StoreFault.Device)
        ⊎ ((fault ≡ OpenFault.Store StoreFault.BadSize)
        ⊎ (fault ≡ OpenFault.Store StoreFault.Memory)))) }
    ensures reads { failures.new.reads ≡ failures.old.reads }
    ensures tables { failures.new.tables ≡ counted_open result failures.old.tables }
{
    let place = match found {
        Ok(place) => place,
        Err(why) => {
            let fault = failures.note_unfound(Deed::Change, path, why);
            return Err(OpenFault::Store(fault));
        }
    };
    match ub_keeping::change(alloc, place) {
        Ok(store) => Ok(store),
        Err(refused) => {
            failures.note_open(refused.fault, missed_at(Deed::Change, path, &refused.store));
            Err(refused.fault)
        }
    }
}

// Keeps what was changed of a store.
fn keep_at<P: Place + Reasons>(
    alloc: Global,
    path: &str,
    store: Overlay<PlaceStore<P>>,
    failures: &mut Failures,
) -> Result<(), StoreFault>
    ensures faults { IfErr result (λ fault. fault ≡ StoreFault.Device) }
    ensures reads { failures.new.reads ≡ failures.old.reads }
    ensures tables { failures.new.tables ≡ counted result failures.old.tables }
{
    let deed = if store.is_changed() {
        Deed::Stop
    } else {
        Deed::Use
    };
    let (place, kept) = ub_keeping::keep(alloc, store);
    match kept {
        Ok(()) => failures.note_refused(refused_at(deed, path, &place)),
        Err(fault) => failures.note(fault, unkept_at(Deed::Keep, path, &place)),
    }
    kept
}

// Makes a table of these pages at a place that was found for it.
fn make_at<P: Place + Reasons, Q: Pages>(
    alloc: Global,
    path: &str,
    found: io::Result<Option<P>>,
    pages: &Q,
    failures: &mut Failures,
) -> Result<(), OpenFault>
    requires some { 1 ≤ length (Q.pages pages.now) }
    ensures faults { IfErr result (λ fault. (fault ≡ OpenFault.BadJournal)
        ⊎ ((fault ≡ OpenFault.Store StoreFault.Device)
        ⊎ (fault ≡ OpenFault.Store StoreFault.Memory))) }
    ensures reads { failures.new.reads ≡ failures.old.reads }
    ensures tables { failures.new.tables ≡ counted_open result failures.old.tables }
{
    let place = match found {
        Ok(Some(place)) => place,
        Ok(None) => return Err(OpenFault::BadJournal),
        Err(why) => {
            let fault = failures.note_unfound(Deed::Make, path, why);
            return Err(OpenFault::Store(fault));
        }
    };
    let (place, made) = ub_keeping::make(alloc, place, pages);
    if let Err(fault) = made {
        failures.note_open(fault, unkept_at(Deed::Make, path, &place));
    }
    made
}

// Lets the place of a store go that isn't kept, and tells what couldn't be done there.
fn let_go<P: Place + Reasons>(path: &str, store: Overlay<PlaceStore<P>>) -> Option<Missed> {
    let is_changed = store.is_changed();
    let place = store.into_store().into_place();
    left_at(is_changed, path, &place)
}

#[tactic(auto, unfolding(crate::specs::Host::is_honest_host))]
impl<'r, R: rt::Files + AllocGlobal + Eprint> Files for HostFiles<'r, R>
where
    R::File: FileExt + AsFd + AsRawFd + Lock,
{
    type Store = Overlay<PlaceStore<HostPlace<'r, R>>>;

    type Text = HostText<R::File>;

    ghost use Rattle.ub_host_files.specs.Host.{clock_of_host, no_host_clock};

    ghost facts = { λ files. facts_of_host files.failures.reads files.failures.tables };

    ghost clock = { λ files. clock_of_host };

    ghost law = { λ files honest. no_host_clock (facts_of_host files.failures.reads files.failures.tables) honest };

    fn read(&mut self, path: &str) -> Result<Vec<u8>, StoreFault> {
        let text = fs::read(self.rt, file_of(path));
        take_text(
            self.rt.alloc(),
            path,
            text,
            &mut self.input,
            &mut self.failures,
        )
    }

    fn open_text(&mut self, path: &str) -> Result<HostText<R::File>, StoreFault> {
        let opened = open_at(self.rt, path);
        told(path, opened, &mut self.failures)
    }

    fn close_text(&mut self, path: &str, text: HostText<R::File>) -> Result<(), StoreFault> {
        told(path, text.end(), &mut self.failures)
    }

    fn open(&mut self, path: &str) -> Result<Overlay<PlaceStore<HostPlace<'r, R>>>, StoreFault> {
        let found = find(self.rt, path, Purpose::Ask);
        ask_at(self.rt.alloc(), path, found, &mut self.failures)
    }

    fn change(&mut self, path: &str) -> Result<Overlay<PlaceStore<HostPlace<'r, R>>>, OpenFault> {
        let found = find(self.rt, path, Purpose::Change);
        change_at(self.rt.alloc(), path, found, &mut self.failures)
    }

    fn keep(
        &mut self,
        path: &str,
        store: Overlay<PlaceStore<HostPlace<'r, R>>>,
    ) -> Result<(), StoreFault> {
        keep_at(self.rt.alloc(), path, store, &mut self.failures)
    }

    fn make<P: Pages>(&mut self, path: &str, pages: &P) -> Result<(), OpenFault> {
        let found = find_to_make(self.rt, path);
        make_at(self.rt.alloc(), path, found, pages, &mut self.failures)
    }

    fn put_back(&mut self, path: &str, store: Overlay<PlaceStore<HostPlace<'r, R>>>) {
        self.failures.note_refused(let_go(path, store));
    }
}
