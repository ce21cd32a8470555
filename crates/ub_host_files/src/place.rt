ghost use Rattle.std.specs.Prelude.{◌≡◌, ◌↔◌, Option, Some, None, IfOk, IfSome, IsOk};
ghost use Rattle.ub_host_files.specs.Host.{facts_of_place};
ghost use Rattle.ub_journal.specs.Image.{IsJournal, told};
ghost use Rattle.ub_journal.specs.Place.{counted, looked};
ghost use Rattle.ub_store.specs.Facts.{raised};

use crate::opening::TableFile;
use std::alloc::{AllocError, Global};
use std::fs::{Metadata, OpenFile, OpenOptions, Permissions};
use std::io::{self, BufWriter, Write};
use std::os::fd::AsFd;
use std::os::unix::fs::{FileExt, MetadataExt, OpenOptionsExt, PermissionsExt, fchown};
use std::path::Path;
use std::{fs, rt};
use ub_file::host::open_store;
use ub_file::{FileStore, HostFile, PAGE_BYTES, RawFile};
use ub_journal::{Failed, Journal, JournalFault, Place, Tells};
use ub_journal_page::{read_journal, write_journal};
use ub_store::{Page, RUN_PAGES};

/// What became of the changes that were put last.
#[derive(Clone, Copy, PartialEq, Eq)]
pub enum Kept {
    /// None was put.
    Nothing,
    /// They stand in the journal, and perhaps in the table file.
    Beside,
    /// They stand in the table file.
    Whole,
}

/// The names of what may stand beside a table file.
#[derive(Drop)]
struct Names {
    folder: String,
    journal: String,
    draft: String,
}

// What stands after a table file's name in that of its journal.
const JOURNAL: &str = "-journal";

// So many bytes of a draft are written at a time, where there is memory for that.
const DRAFT_BYTES: usize = 16 * PAGE_BYTES as usize;

/// What a place tells of its calls that were refused.
pub trait Reasons {
    /// The system's reason for the last call that it refused.
    fn why(&self) -> Option<io::Error>;

    /// Whether the table file is locked so that no other program has it open.
    fn is_alone(&self) -> bool;

    /// What became of the changes that were put last.
    fn kept(&self) -> Kept;

    /// The name of the journal.
    fn journal_name(&self) -> &str;
}

/// A table file of the system that is open and locked, with what may stand beside it: the journal, which has the file's name and
/// `-journal` after it, and its draft, which has `.tmp` after that.
///
/// That these files give back what was written to them, that what was synced lasts, that a file gets another's name whole or not at
/// all, and that no other program writes to them while the lock is held is a premise: nothing is proved of it but that the calls
/// are those of the standard library.
#[derive(Drop)]
pub struct HostPlace<'r, R: rt::Files> {
    rt: &'r R,
    alloc: Global,
    file: R::File,
    told: Metadata,
    is_alone: bool,
    // None of a device or a pipe.
    names: Option<Names>,
    draft: Option<R::File>,
    pages: u64,
    rest: u32,
    failures: u64,
    why: Option<io::Error>,
    kept: Kept,
}

impl Names {
    // The names beside a file that has this one.
    fn of(alloc: Global, real: &str) -> io::Result<Names> {
        let folder = match Path::new(real).parent() {
            Some(parent) if !parent.as_str().is_empty() => parent.as_str(),
            _ => ".",
        };
        Ok(Names {
            folder: String::from_str(alloc, folder)?,
            journal: journal_beside(alloc, real)?,
            draft: format!(in alloc; "{real}{JOURNAL}.tmp")?,
        })
    }
}

impl<'r, R: rt::Files> HostPlace<'r, R>
where
    R::File: FileExt + AsFd,
{
    /// The place of a table file. Only memory may be refused.
    pub fn new(
        rt: &'r R,
        alloc: Global,
        table: TableFile<R::File>,
    ) -> io::Result<HostPlace<'r, R>> {
        let TableFile {
            file,
            told,
            real,
            is_alone,
        } = table;
        let names = match real {
            Some(real) => Some(Names::of(alloc, real.as_str())?),
            None => None,
        };
        let length = told.len();
        Ok(HostPlace {
            rt,
            alloc,
            file,
            told,
            is_alone,
            names,
            draft: None,
            pages: length / PAGE_BYTES,
            rest: (length % PAGE_BYTES) as u32,
            failures: 0,
            why: None,
            kept: Kept::Nothing,
        })
    }

    // Notes a call that the system refused, and its reason.
    fn refuse(&mut self, why: Option<io::Error>)
        ensures { self.new ≡ record self.old {
          failures = raised self.old.failures 1;
          why = why;
        } }
    {
        self.failures = self.failures.saturating_add(1);
        self.why = why;
    }

    // What a call of the system came to.
    fn tell(&mut self, done: io::Result<()>) -> Result<(), Failed>
        ensures told { IsOk result ↔ IsOk done }
        ensures same { self.new ≡ record self.old {
          failures = counted result self.old.failures;
          why = self.new.why;
        } }
    {
        match done {
            Ok(()) => Ok(()),
            Err(why) => {
                self.refuse(Some(why));
                Err(Failed)
            }
        }
    }

    // What a journal is that was read, or couldn't be, for this reason of the system's.
    fn take_journal(
        &mut self,
        read: Result<Journal, (JournalFault, Option<io::Error>)>,
    ) -> Result<Option<Journal>, JournalFault>
        requires { IfOk read (λ j. IsJournal (told j)) }
        ensures journal { IfOk result (λ found. IfSome found (λ j. IsJournal (told j))) }
        ensures failures { self.new.failures ≡ looked result self.old.failures }
        ensures same { (self.new.pages ≡ self.old.pages) × (self.new.rest ≡ self.old.rest) }
    {
        match read {
            Ok(journal) => Ok(Some(journal)),
            Err((JournalFault::Device, why)) => {
                self.refuse(why);
                Err(JournalFault::Device)
            }
            Err((fault, _)) => Err(fault),
        }
    }

    // What a journal is that isn't opened as pages, for this reason of the system's: one that isn't there; or, with no reason, one
    // of another size.
    fn unopened(&mut self, why: Option<io::Error>) -> Result<Option<Journal>, JournalFault>
        ensures none { IfOk result (λ found. found ≡ None) }
        ensures failures { self.new.failures ≡ looked result self.old.failures }
        ensures same { (self.new.pages ≡ self.old.pages) × (self.new.rest ≡ self.old.rest) }
    {
        match why {
            None => Err(JournalFault::Damaged),
            Some(why) if is_missing(why.kind()) => Ok(None),
            _ => {
                self.refuse(why);
                Err(JournalFault::Device)
            }
        }
    }

    // Writes the draft of a journal.
    fn write_draft<J: Tells>(&mut self, journal: &J) -> io::Result<()>
        requires { IsJournal (J.told journal.now) }
        ensures { (draft : Option R.File) × (self.new ≡ record self.old { draft = draft }) }
    {
        let Some(names) = &self.names else {
            return Err(no_names());
        };
        let opened = open_draft(self.rt, names.draft.as_str());
        match filled(self.alloc, opened, &self.told, journal) {
            Ok(file) => {
                self.draft = Some(file);
                Ok(())
            }
            Err(why) => Err(why),
        }
    }

    // Takes the draft away, if that can be done: nobody reads it.
    fn drop_draft(&mut self)
        ensures { self.new ≡ record self.old { draft = None } }
    {
        self.draft = None;
        if let Some(names) = &self.names {
            let _ = self.rt.remove_file(names.draft.as_str());
        }
    }
}

/// The name of the journal beside a table file.
pub fn journal_beside(alloc: Global, path: &str) -> Result<String, AllocError> {
    format!(in alloc; "{path}{JOURNAL}")
}

// Reads the journal that a store spells. Beside a fault stands the system's reason, where it gave one.
// Never compiled into its caller, whose frame would hold pages also where no journal stands.
#[inline(never)]
fn read_whole<F: RawFile>(
    alloc: Global,
    mut store: FileStore<HostFile<F>>,
) -> Result<Journal, (JournalFault, Option<io::Error>)>
    ensures { IfOk result (λ j. IsJournal (told j)) }
{
    match read_journal(alloc, &mut store) {
        Ok(journal) => Ok(journal),
        Err(fault) => Err((fault, store.into_medium().why())),
    }
}

// Whether a file isn't there, for this reason: no file has its name, or can have one so long.
fn is_missing(kind: io::ErrorKind) -> bool {
    matches!(
        kind,
        io::ErrorKind::NotFound | io::ErrorKind::InvalidFilename
    )
}

// What a device is said to have no journal for.
fn no_names() -> io::Error {
    io::Error::from(io::ErrorKind::Unsupported)
}

// Opens the draft of a journal anew, for this user alone.
fn open_draft<R: rt::Files>(rt: &R, path: &str) -> io::Result<R::File> {
    let _ = rt.remove_file(path);
    way_of_draft().open(rt, path)
}

// The way to open a draft: it is made, for this user alone.
fn way_of_draft() -> OpenOptions {
    let mut how = OpenOptions::new();
    how.write(true);
    how.create_new(true);
    how.mode(0o600);
    how
}

// Gives a draft the group, the mode and the owner of a file of which the system told this. Where the group is refused, no other group
// gets its rights; where the owner is, this user stays the owner.
fn give_rights<F: OpenFile + AsFd>(file: &F, told: &Metadata) -> io::Result<()> {
    let mode = match fchown(file, None, Some(told.gid())) {
        Ok(()) => told.mode() & 0o777,
        Err(_) => told.mode() & 0o707,
    };
    file.set_permissions(Permissions::from_mode(mode))?;
    let _ = fchown(file, Some(told.uid()), None);
    Ok(())
}

// Makes last which names stand in a folder.
fn sync_folder<R: rt::Files>(rt: &R, folder: &str) -> io::Result<()> {
    fs::open(rt, folder)?.sync_all()
}

// Gives a draft that was opened its rights, and writes a journal.
fn filled<F: OpenFile + AsFd + Write + Drop, J: Tells>(
    alloc: Global,
    opened: io::Result<F>,
    told: &Metadata,
    journal: &J,
) -> io::Result<F>
    requires { IsJournal (J.told journal.now) }
{
    let mut file = opened?;
    give_rights(&file, told)?;
    write_buffered(alloc, &mut file, journal)?;
    Ok(file)
}

// Writes the pages of a journal, many at a time, or part by part where memory is refused for that.
fn write_buffered<F: Write, J: Tells>(alloc: Global, file: &mut F, journal: &J) -> io::Result<()>
    requires { IsJournal (J.told journal.now) }
{
    if let Ok(mut many) = BufWriter::with_capacity(alloc, DRAFT_BYTES, &mut *file) {
        write_journal(&mut many, journal)?;
        return many.flush();
    }
    write_journal(file, journal)
}

impl<R: rt::Files> Reasons for HostPlace<'_, R> {
    fn why(&self) -> Option<io::Error> {
        self.why
    }

    fn is_alone(&self) -> bool {
        self.is_alone
    }

    fn kept(&self) -> Kept {
        self.kept
    }

    fn journal_name(&self) -> &str {
        match &self.names {
            Some(names) => names.journal.as_str(),
            None => "",
        }
    }
}

#[tactic(auto, unfolding(crate::specs::Host::is_honest_host, crate::specs::Host::seen_at))]
impl<'r, R: rt::Files> Place for HostPlace<'r, R>
where
    R::File: FileExt + AsFd,
{
    ghost facts = { λ place. facts_of_place place.pages place.rest place.failures };

    ghost use Rattle.ub_host_files.specs.Host.{no_clock};

    ghost clock = { λ place honest. no_clock place.pages place.rest place.failures honest };

    fn pages(&self) -> u64 {
        self.pages
    }

    fn rest(&self) -> u32 {
        self.rest
    }

    fn journal(&mut self, alloc: Global) -> Result<Option<Journal>, JournalFault> {
        let Some(names) = &self.names else {
            return Ok(None);
        };
        match open_store(self.rt, names.journal.as_str()) {
            Ok(store) => self.take_journal(read_whole(alloc, store)),
            Err(refusal) => self.unopened(refusal.why),
        }
    }

    fn read_page(&mut self, n: u32, page: &mut Page) -> Result<(), Failed> {
        let done = self.file.read_exact_at(page, PAGE_BYTES * u64::from(n));
        self.tell(done)
    }

    fn read_run(&mut self, n: u32, bytes: &mut [u8]) -> Result<u32, Failed> {
        let count = (bytes.len() / PAGE_BYTES as usize).min(RUN_PAGES as usize);
        let run = &mut bytes[..count * PAGE_BYTES as usize];
        let done = self.file.read_exact_at(run, PAGE_BYTES * u64::from(n));
        self.tell(done)?;
        Ok(count as u32)
    }

    fn write_page(&mut self, n: u32, page: &Page) -> Result<(), Failed> {
        let done = self.file.write_all_at(page, PAGE_BYTES * u64::from(n));
        self.tell(done)
    }

    fn mark(&mut self) -> Result<(), Failed> {
        let done = self.file.write_all_at(&[1], 5);
        self.tell(done)
    }

    fn resize(&mut self, count: u32) -> Result<(), Failed> {
        let done = self.file.set_len(PAGE_BYTES * u64::from(count));
        if done.is_ok() {
            self.pages = u64::from(count);
            self.rest = 0;
        }
        self.tell(done)
    }

    fn sync(&mut self) -> Result<(), Failed> {
        let done = self.file.sync_all();
        self.tell(done)
    }

    fn draft<J: Tells>(&mut self, journal: &J) -> Result<(), Failed> {
        let done = self.write_draft(journal);
        if done.is_err() {
            self.drop_draft();
        }
        self.tell(done)
    }

    fn sync_draft(&mut self) -> Result<(), Failed> {
        let done = match &self.draft {
            Some(file) => file.sync_all(),
            None => Err(no_names()),
        };
        if done.is_err() {
            self.drop_draft();
        }
        self.tell(done)
    }

    fn publish(&mut self) -> Result<(), Failed> {
        let done = match &self.names {
            Some(names) => self.rt.rename(names.draft.as_str(), names.journal.as_str()),
            None => Err(no_names()),
        };
        if done.is_err() {
            self.drop_draft();
        } else {
            self.kept = Kept::Beside;
        }
        self.tell(done)
    }

    fn remove(&mut self) -> Result<(), Failed> {
        let done = match &self.names {
            Some(names) => self.rt.remove_file(names.journal.as_str()),
            None => Err(no_names()),
        };
        if done.is_ok() && self.kept == Kept::Beside {
            self.kept = Kept::Whole;
        }
        self.tell(done)
    }

    fn sync_folder(&mut self) -> Result<(), Failed> {
        let done = match &self.names {
            Some(names) => sync_folder(self.rt, names.folder.as_str()),
            None => Err(no_names()),
        };
        self.tell(done)
    }
}
