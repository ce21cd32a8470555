use crate::bytes::put_items;
use crate::stores::Failing;
use crate::words::{Words, cut};
use std::alloc::Global;
use ub_store::{FaultyStore, MAX_PAGES, MemStore, Page};

/// A store in memory that fails at one call, or at none.
pub type Store = FaultyStore<MemStore>;

impl Failing for FaultyStore<MemStore> {
    fn of(pages: Vec<Page>, k: u64) -> Option<FaultyStore<MemStore>> {
        if pages.len() > MAX_PAGES as usize {
            return None;
        }
        Some(FaultyStore::new(MemStore::of(pages), k))
    }
}

// The pages of a table that has a name.
#[derive(Drop)]
struct Table {
    name: String,
    pages: Vec<Page>,
}

/// Tables by their names.
#[derive(Drop)]
pub struct Tables {
    alloc: Global,
    tables: Vec<Table>,
}

impl Tables {
    /// None.
    pub fn new(alloc: Global) -> Tables {
        Tables {
            alloc,
            tables: Vec::new(alloc),
        }
    }

    /// Takes a line that begins a table, or adds pages to the last one, and gives whether it is such a line.
    pub fn take(&mut self, line: &str) -> bool {
        let mut words = Words::new(line);
        let count = match words.word() {
            "table" => return self.begin(words.rest),
            "page" => 1,
            _ => words.short(),
        };
        !words.is_wrong && self.add(count, words.rest)
    }

    // Begins a table, of no pages or of another one's, in place of one of this name.
    fn begin(&mut self, words: &str) -> bool {
        let (name, rest) = cut(words);
        let pages = match rest.strip_prefix("= ") {
            Some(other) => self.pages(other),
            None => Some(Vec::new(self.alloc)),
        };
        match (String::from_str(self.alloc, name), pages) {
            (Ok(name), Some(pages)) => self.tables.push(Table { name, pages }).is_ok(),
            _ => false,
        }
    }

    // Adds so many pages to the last table.
    fn add(&mut self, count: u32, items: &str) -> bool {
        let Some(table) = self.tables.last_mut() else {
            return false;
        };
        let mut is_well = true;
        for turn in 0..count {
            let mut page = [0; 4096];
            is_well &= put_items(&mut page, 0, items, turn);
            is_well &= table.pages.push(page).is_ok();
        }
        is_well
    }

    // The pages of the last table of this name.
    fn named(&self, name: &str) -> Option<&[Page]> {
        let mut found = None;
        for table in self.tables.as_slice() {
            if table.name.as_str() == name {
                found = Some(table.pages.as_slice());
            }
        }
        found
    }

    /// The pages of a table in which some bytes are others, by the words for both: its name is the first word, and with commas between
    /// them the words for the bytes stand behind `with`.
    pub fn pages(&self, words: &str) -> Option<Vec<Page>> {
        let (front, hurts) = words.split_once(" with ").unwrap_or((words, ""));
        let mut pages = Vec::from_slice(self.alloc, self.named(cut(front).0)?).ok()?;
        let mut is_well = true;
        for words in hurts.split(',') {
            is_well &= put_hurt(pages.as_mut_slice(), words.trim());
        }
        if is_well { Some(pages) } else { None }
    }
}

// Puts items into a page, by the words for the page, the offset, and them; or nothing where there are no words.
fn put_hurt(pages: &mut [Page], words: &str) -> bool {
    let (place, items) = cut(words);
    let (number, at) = place.split_once('@').unwrap_or(("", ""));
    match (number.parse::<usize>(), at.parse::<usize>()) {
        (Ok(number), Ok(at)) => match pages.get_mut(number) {
            Some(page) => put_items(page, at, items, 0),
            None => false,
        },
        _ => words.is_empty(),
    }
}
