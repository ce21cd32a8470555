ghost use Rattle.std.specs.Prelude.{◌≡◌, ◌↔◌, ℕ, length, IfOk, IsErrOf, OnOk};
ghost use Rattle.std.specs.Option.{option_map};
ghost use Rattle.ub_journal.specs.Image.{Image, IsJournal, told};
ghost use Rattle.ub_store.specs.Facts.{raised};
ghost use Rattle.ub_journal.specs.Torn.{HoldsAt, Notes, StandsAtFirst, done, first_image, seen_after};
ghost use Rattle.ub_journal.specs.inner.TornBeside.{IsBeside, drafted};

use crate::fault::JournalFault;
use crate::journal::{Change, Journal, Tells, is_journal};
use crate::place::{Failed, Place};
use std::alloc::{AllocError, Global};
use ub_store::Page;

/// A call of a place that was done.
#[derive(Drop)]
pub enum Deed {
    /// A page was put at a number.
    Write(u32, Page),
    /// The first page was marked.
    Mark,
    /// The file got so many pages.
    Resize(u32),
    /// The table's file was synced.
    Sync,
    /// A draft of a journal was written.
    Draft(Journal),
    /// The draft was synced.
    SyncDraft,
    /// The draft got the journal's name.
    Publish,
    /// The journal was taken away.
    Remove,
    /// The folder was synced.
    SyncFolder,
}

/// A place in memory, for tests and for files in memory: it keeps what stood there at first, and each call that was done since, so
/// that a test can make all that a crash may leave. A call fails, and does nothing, where it is the one that is due to fail, or where
/// memory was refused.
///
/// It keeps what is promised of an honest place. One that is made as not honest does the same, and asks nothing of its caller: so a
/// test that looks at all images itself has nothing to show before it calls.
#[derive(Drop)]
pub struct TornPlace {
    alloc: Global,
    first: Vec<Page>,
    rest: u16,
    journal: Option<Journal>,
    deeds: Vec<Deed>,
    honest: bool,
    due: u64,
    failures: u64,
}

impl TornPlace {
    /// A place with these pages, so many bytes after them, and this journal or none, all of which lasts. None of its calls is due to
    /// fail.
    pub fn new(
        alloc: Global,
        first: Vec<Page>,
        rest: u16,
        journal: Option<Journal>,
        honest: bool,
    ) -> TornPlace
        ensures facts { StandsAtFirst first.items rest (option_map told journal) honest
            (⟦<TornPlace as Place>⟧.facts result) }
    {
        TornPlace {
            alloc,
            first,
            rest,
            journal,
            deeds: Vec::new(alloc),
            honest,
            due: 0,
            failures: 0,
        }
    }

    /// Lets the k-th call from here on fail, or none where k is 0.
    pub fn fail_at(&mut self, k: u64)
        ensures honest { (⟦<TornPlace as Place>⟧.facts self.new).honest
            ≡ (⟦<TornPlace as Place>⟧.facts self.old).honest }
        ensures seen { (⟦<TornPlace as Place>⟧.facts self.new).seen
            ≡ (⟦<TornPlace as Place>⟧.facts self.old).seen }
        ensures failures { (⟦<TornPlace as Place>⟧.facts self.new).failures
            ≡ (⟦<TornPlace as Place>⟧.facts self.old).failures }
    {
        self.due = k;
    }

    /// The calls that were done, one after the other. Those that only read are none.
    pub fn deeds(&self) -> &[Deed]
        ensures moment { length result.now ≡ (⟦<TornPlace as Place>⟧.facts self.now).moment }
        ensures seen { (first : Image) × ((⟦<TornPlace as Place>⟧.facts self.now).seen
            ≡ seen_after first result.now) }
    {
        self.deeds.as_slice()
    }

    /// Whether it was made as honest.
    pub fn is_honest(&self) -> bool
        ensures { result ≡ (⟦<TornPlace as Place>⟧.facts self.now).honest }
    {
        self.honest
    }

    /// The pages that are seen, as a list. AllocError comes where memory was refused.
    pub fn copy_pages(&self, alloc: Global) -> Result<Vec<Page>, AllocError>
        ensures { IfOk result
            (λ pages. pages.items ≡ (⟦<TornPlace as Place>⟧.facts self.now).seen.table) }
    {
        let mut pages = Vec::from_slice(alloc, self.first.as_slice())?;
        for deed in self.deeds.as_slice() {
            put_again(deed, &mut pages)?;
        }
        Ok(pages)
    }

    /// A place at which what is seen here stands from the first, all of it lasting: what another process finds once this one has
    /// ended, and what was written lasts. None of its calls is due to fail. AllocError comes where memory was refused.
    pub fn restarted(&self, alloc: Global) -> Result<TornPlace, AllocError>
        ensures { let old = ⟦<TornPlace as Place>⟧.facts self.now in
            IfOk result (λ place. StandsAtFirst old.seen.table old.seen.rest old.seen.journal
            old.honest (⟦<TornPlace as Place>⟧.facts place)) }
    {
        let pages = self.copy_pages(alloc)?;
        let journal = self.copy_journal(alloc)?;
        Ok(TornPlace::new(alloc, pages, self.bytes_after(), journal, self.honest))
    }

    // A copy of the journal that is seen, if one is.
    fn copy_journal(&self, alloc: Global) -> Result<Option<Journal>, AllocError>
        ensures { IfOk result (λ copy. option_map told copy
            ≡ (seen_after (first_image self.now) self.now.deeds.items).journal) }
    {
        match self.beside().journal {
            Some(seen) => Ok(Some(copy_seen(alloc, seen)?)),
            None => Ok(None),
        }
    }

    // How many bytes stand after the last page.
    fn bytes_after(&self) -> u16
        ensures { (seen_after (first_image self.now) self.now.deeds.items).rest ≡ result }
    {
        let mut rest = self.rest;
        for deed in self.deeds.as_slice() {
            rest = rest_after(deed, rest);
        }
        rest
    }

    // Counts a call, and tells whether it is the one to fail.
    fn is_due(&mut self) -> bool
        ensures honest { self.new.honest ≡ self.old.honest }
        ensures first { first_image self.new ≡ first_image self.old }
        ensures deeds { self.new.deeds.items ≡ self.old.deeds.items }
        ensures failures { self.new.failures ≡ self.old.failures }
    {
        let is_due = self.due == 1;
        self.due = self.due.saturating_sub(1);
        is_due
    }

    // Counts a failure.
    fn fail(&mut self) -> Failed
        ensures honest { self.new.honest ≡ self.old.honest }
        ensures first { first_image self.new ≡ first_image self.old }
        ensures deeds { self.new.deeds.items ≡ self.old.deeds.items }
        ensures failures { self.new.failures ≡ raised self.old.failures 1 }
    {
        self.failures = self.failures.saturating_add(1);
        Failed
    }

    // Notes a call, or fails.
    fn note(&mut self, deed: Deed) -> Result<(), Failed>
        ensures notes { Notes deed self.old self.new result }
    {
        if self.is_due() {
            return Err(self.fail());
        }
        if self.deeds.push(deed).is_err() {
            return Err(self.fail());
        }
        Ok(())
    }

    // The draft and the journal that are seen.
    fn beside(&self) -> Beside<'_>
        ensures { IsBeside result (seen_after (first_image self.now) self.now.deeds.items) }
    {
        let mut found = Beside {
            draft: None,
            journal: self.journal.as_ref().map(Some),
        };
        for deed in self.deeds.as_slice() {
            found = found.after(deed);
        }
        found
    }

    // Puts the page of this number, which is seen, into the one that is lent, and tells how many there are.
    fn look_up(&self, n: u32, page: &mut Page) -> u64
        ensures seen { HoldsAt (seen_after (first_image self.now) self.now.deeds.items)
            n result page.new }
    {
        let mut count = self.first.len() as u64;
        *page = [0; 4096];
        if u64::from(n) < count {
            *page = self.first[n as usize];
        }
        for deed in self.deeds.as_slice() {
            redo(deed, n, &mut count, page);
        }
        count
    }
}

// A journal in memory that says the same.
fn copy_of<J: Tells>(alloc: Global, journal: &J) -> Result<Journal, AllocError>
    ensures { IfOk result (λ copy. told copy ≡ J.told journal.now) }
{
    let mut changes = Vec::new(alloc);
    let mut page = [0; 4096];
    for at in 0..journal.changes() {
        let number = journal.put_change(at, &mut page);
        changes.push(Change { number, page })?;
    }
    Ok(Journal {
        before: journal.before(),
        head: journal.head(),
        count: journal.count(),
        changes,
    })
}

// A copy of a journal that is seen: a draft, or what got the name before one was written.
fn copy_seen(alloc: Global, seen: Option<&Journal>) -> Result<Journal, AllocError>
    ensures { IfOk result (λ copy. told copy ≡ drafted seen.entry) }
{
    match seen {
        Some(journal) => copy_of(alloc, journal),
        None => Ok(Journal {
            before: [0; 4096],
            head: [0; 4096],
            count: 0,
            changes: Vec::new(alloc),
        }),
    }
}

// A copy of a journal that is seen, where it is one that pages can hold. Damaged comes exactly where its table is to have no pages.
fn read_seen(alloc: Global, seen: Option<&Journal>) -> Result<Journal, JournalFault>
    ensures read { IfOk result (λ copy. (drafted seen.entry ≡ told copy) × IsJournal (told copy)) }
    ensures damaged { IsErrOf result JournalFault.Damaged ↔ ((drafted seen.entry).count ≡ 0) }
{
    let Some(seen) = seen else {
        return Err(JournalFault::Damaged);
    };
    if seen.count == 0 {
        return Err(JournalFault::Damaged);
    }
    if !is_journal(seen) {
        return Err(JournalFault::Device);
    }
    match copy_of(alloc, seen) {
        Ok(copy) => Ok(copy),
        Err(_) => Err(JournalFault::Memory),
    }
}

// The draft that was written last, if one was, and the journal that is seen: a draft that got the name, or what got it before one was
// written.
#[derive(Clone, Copy)]
struct Beside<'a> {
    draft: Option<&'a Journal>,
    journal: Option<Option<&'a Journal>>,
}

impl<'a> Beside<'a> {
    // What is seen after a call.
    fn after(self, deed: &'a Deed) -> Beside<'a>
        ensures { (i : Image) → IsBeside self.entry i → IsBeside result (done deed.now i) }
    {
        match deed {
            Deed::Draft(journal) => Beside {
                draft: Some(journal),
                journal: self.journal,
            },
            Deed::Publish => Beside {
                draft: self.draft,
                journal: Some(self.draft),
            },
            Deed::Remove => Beside {
                draft: self.draft,
                journal: None,
            },
            _ => self,
        }
    }
}

// How many bytes stand after the last page, after a call where there were so many.
fn rest_after(deed: &Deed, rest: u16) -> u16
    ensures { (i : Image) → i.rest ≡ rest → (done deed.now i).rest ≡ result }
{
    match deed {
        Deed::Resize(_) => 0,
        _ => rest,
    }
}

// Does a call again that was done, to a list of pages. An error leaves any list.
fn put_again(deed: &Deed, pages: &mut Vec<Page>) -> Result<(), AllocError>
    ensures { OnOk result ((i : Image) → i.table ≡ pages.old.items
        → (done deed.now i).table ≡ pages.new.items) }
{
    match deed {
        Deed::Write(number, bytes) => {
            let at = *number as usize;
            if at < pages.len() {
                pages[at] = *bytes;
            }
        }
        Deed::Mark => {
            if !pages.is_empty() {
                let mut first = pages[0];
                first[5] = 1;
                pages[0] = first;
            }
        }
        Deed::Resize(size) => pages.resize(*size as usize, [0; 4096])?,
        _ => {}
    }
    Ok(())
}

// What a call makes of the number of pages, and of the page of this number.
fn redo(deed: &Deed, n: u32, count: &mut u64, page: &mut Page)
    ensures { (i : Image) → HoldsAt i n count.old page.old
        → HoldsAt (done deed.now i) n count.new page.new }
{
    match deed {
        Deed::Write(number, bytes) => {
            if *number == n && u64::from(n) < *count {
                *page = *bytes;
            }
        }
        Deed::Mark => {
            if n == 0 && *count > 0 {
                page[5] = 1;
            }
        }
        Deed::Resize(size) => {
            if *size <= n {
                *page = [0; 4096];
            }
            *count = u64::from(*size);
        }
        _ => {}
    }
}

impl Place for TornPlace {
    ghost use Rattle.ub_journal.specs.Torn.{first_image, torn_facts};
    ghost use Rattle.ub_journal.specs.inner.TornClock.{torn_clock};

    ghost facts = { torn_facts };

    ghost clock = { λ p h. torn_clock p.honest (first_image p) p.deeds.items p.failures };

    fn pages(&self) -> u64 {
        self.look_up(0, &mut [0; 4096])
    }

    fn rest(&self) -> u32 {
        u32::from(self.bytes_after())
    }

    fn journal(&mut self, alloc: Global) -> Result<Option<Journal>, JournalFault> {
        if self.is_due() {
            self.fail();
            return Err(JournalFault::Device);
        }
        let read = match self.beside().journal {
            Some(seen) => read_seen(alloc, seen),
            None => return Ok(None),
        };
        match read {
            Ok(journal) => Ok(Some(journal)),
            Err(JournalFault::Damaged) => Err(JournalFault::Damaged),
            Err(JournalFault::Memory) => Err(JournalFault::Memory),
            Err(JournalFault::Device) => {
                self.fail();
                Err(JournalFault::Device)
            }
        }
    }

    fn read_page(&mut self, n: u32, page: &mut Page) -> Result<(), Failed> {
        if self.is_due() {
            return Err(self.fail());
        }
        self.look_up(n, page);
        Ok(())
    }

    fn write_page(&mut self, n: u32, page: &Page) -> Result<(), Failed> {
        self.note(Deed::Write(n, *page))
    }

    fn mark(&mut self) -> Result<(), Failed> {
        self.note(Deed::Mark)
    }

    fn resize(&mut self, count: u32) -> Result<(), Failed> {
        self.note(Deed::Resize(count))
    }

    fn sync(&mut self) -> Result<(), Failed> {
        self.note(Deed::Sync)
    }

    fn draft<J: Tells>(&mut self, journal: &J) -> Result<(), Failed> {
        match copy_of(self.alloc, journal) {
            Ok(copy) => self.note(Deed::Draft(copy)),
            Err(_) => Err(self.fail()),
        }
    }

    fn sync_draft(&mut self) -> Result<(), Failed> {
        self.note(Deed::SyncDraft)
    }

    fn publish(&mut self) -> Result<(), Failed> {
        self.note(Deed::Publish)
    }

    fn remove(&mut self) -> Result<(), Failed> {
        self.note(Deed::Remove)
    }

    fn sync_folder(&mut self) -> Result<(), Failed> {
        self.note(Deed::SyncFolder)
    }
}
