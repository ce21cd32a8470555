use std::alloc::{AllocError, Global};
use ub_journal::{Change, Deed, Journal, Place, TornPlace};
use ub_store::Page;

/// What a crash leaves of the calls that were done.
#[derive(Clone, Copy)]
pub enum Left {
    /// All that is seen, as after a process that is killed.
    Seen,
    /// What was synced, and nothing of what wasn't.
    Lost,
    /// Names as they are seen; of each page that was written and not synced, half is the new one and half what stood there.
    Torn,
}

/// The word for what is left, if it is one.
pub fn left_by(word: &str) -> Option<Left> {
    match word {
        "seen" => Some(Left::Seen),
        "lost" => Some(Left::Lost),
        "torn" => Some(Left::Torn),
        _ => None,
    }
}

/// What stood at a place before its calls, all of which lasts.
#[derive(Drop)]
pub struct Before {
    pub table: Vec<Page>,
    pub journal: Option<Journal>,
}

/// What is seen at a place, if there is one.
pub fn seen_at(alloc: Global, place: Option<&TornPlace>) -> Result<Before, AllocError> {
    let Some(place) = place else {
        return Ok(Before {
            table: Vec::new(alloc),
            journal: None,
        });
    };
    let mut copy = place.restarted(alloc)?;
    Ok(Before {
        table: place.copy_pages(alloc)?,
        journal: copy.journal(alloc).unwrap_or(None),
    })
}

// What is seen of a table's file and the names beside it, and what of that lasts; and whether memory was refused for it.
#[derive(Drop)]
struct Disk<'a> {
    table: Vec<Page>,
    lasting: Vec<Page>,
    draft: Option<&'a Journal>,
    journal: Option<&'a Journal>,
    journal_lasting: Option<&'a Journal>,
    is_out: bool,
}

/// What a crash leaves at a place where these pages and this journal stood before its calls.
pub fn left_of(
    alloc: Global,
    before: &Before,
    place: &TornPlace,
    left: Left,
) -> Result<TornPlace, AllocError> {
    match left {
        Left::Seen => place.restarted(alloc),
        Left::Lost => redone(alloc, before, place.deeds(), false),
        Left::Torn => redone(alloc, before, place.deeds(), true),
    }
}

// What is left of these calls: what lasts of them, or pages that are torn.
fn redone(
    alloc: Global,
    before: &Before,
    deeds: &[Deed],
    is_torn: bool,
) -> Result<TornPlace, AllocError> {
    let mut disk = Disk {
        table: Vec::new(alloc),
        lasting: Vec::new(alloc),
        draft: None,
        journal: before.journal.as_ref(),
        journal_lasting: before.journal.as_ref(),
        is_out: false,
    };
    redo_all(&mut disk, before.table.as_slice(), deeds, is_torn);
    if disk.is_out {
        return Err(AllocError);
    }
    let journal = copied(alloc, disk.journal_lasting)?;
    Ok(TornPlace::new(alloc, disk.lasting, 0, journal, true))
}

// Does the calls again, from these pages on; where pages are torn, these and the names that are seen last.
fn redo_all<'a>(disk: &mut Disk<'a>, table: &[Page], deeds: &'a [Deed], is_torn: bool) {
    disk.is_out |= disk.table.extend_from_slice(table).is_err();
    sync(disk);
    for deed in deeds {
        redo(disk, deed);
    }
    if is_torn {
        tear(disk.table.as_mut_slice(), disk.lasting.as_slice());
        sync(disk);
        disk.journal_lasting = disk.journal;
    }
}

// Lets the pages that are seen last.
fn sync(disk: &mut Disk<'_>) {
    disk.lasting.clear();
    disk.is_out |= disk
        .lasting
        .extend_from_slice(disk.table.as_slice())
        .is_err();
}

// Does a call again.
fn redo<'a>(disk: &mut Disk<'a>, deed: &'a Deed) {
    match deed {
        Deed::Write(n, page) => put(disk.table.as_mut_slice(), *n, page),
        Deed::Mark => mark(disk.table.as_mut_slice()),
        Deed::Resize(count) => {
            disk.is_out |= disk.table.resize(*count as usize, [0; 4096]).is_err();
        }
        Deed::Sync => sync(disk),
        Deed::Draft(journal) => disk.draft = Some(journal),
        Deed::SyncDraft => {}
        Deed::Publish => disk.journal = disk.draft,
        Deed::Remove => disk.journal = None,
        Deed::SyncFolder => disk.journal_lasting = disk.journal,
    }
}

// Marks the first page, where there is one.
fn mark(table: &mut [Page]) {
    if let Some(first) = table.first_mut() {
        first[5] = 1;
    }
}

// Puts a page at its number, where there is one.
fn put(table: &mut [Page], n: u32, page: &Page) {
    if let Some(slot) = table.get_mut(n as usize) {
        *slot = *page;
    }
}

// Puts the second half of each page as it lasts into what is seen of it.
fn tear(table: &mut [Page], lasting: &[Page]) {
    for n in 0..table.len() {
        let old = lasting.get(n).copied().unwrap_or([0; 4096]);
        table[n][2048..].copy_from_slice(&old[2048..]);
    }
}

// A copy of a journal, if there is one.
fn copied(alloc: Global, journal: Option<&Journal>) -> Result<Option<Journal>, AllocError> {
    let Some(journal) = journal else {
        return Ok(None);
    };
    let mut changes = Vec::new(alloc);
    for change in journal.changes.as_slice() {
        changes.push(Change {
            number: change.number,
            page: change.page,
        })?;
    }
    Ok(Some(Journal {
        before: journal.before,
        head: journal.head,
        count: journal.count,
        changes,
    }))
}
