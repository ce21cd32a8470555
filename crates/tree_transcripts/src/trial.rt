ghost use Rattle.std.specs.Prelude.{◌≡◌, IfSome};
ghost use Rattle.ub_store.specs.Facts.{page_count};

use crate::asking::ask;
use crate::bench::Answering;
use crate::reply::{NONE, UNKNOWN, release};
use crate::stores::{Failing, look, pages_of};
use crate::tables::Tables;
use crate::told::Told;
use crate::words::{Words, cut};
use std::alloc::Global;
use ub_store::{Page, PageStore, Rejected};
use ub_table::{Name, PageFault, Schema};
use ub_tree::{Tree, TreeFault};

/// A tree, or the store that it left, and the tables that stores are made of.
#[derive(Drop)]
pub struct Trial<S: PageStore + Failing> {
    alloc: Global,
    tables: Tables,
    tree: Option<Tree<S>>,
    store: Option<S>,
    // The store of the old table that was upgraded.
    old: Option<S>,
}

// What a line is about.
#[derive(Drop)]
enum Kind {
    Table,
    // The store that the tree left, or that of the old table.
    Look,
    Old,
    Begin,
    Create,
    Bring,
    Close,
    Tree,
}

// What a line is about, by its first word.
fn kind_of(head: &str) -> Kind {
    match head {
        "table" | "page" | "pages" => Kind::Table,
        "size" | "same" | "bytes" | "due" => Kind::Look,
        "old" => Kind::Old,
        "store" | "open" | "again" => Kind::Begin,
        "create" => Kind::Create,
        "bring" => Kind::Bring,
        "close" => Kind::Close,
        _ => Kind::Tree,
    }
}

// The schema of the plane, or of the line.
fn schema_of(word: &str) -> Result<Schema, PageFault> {
    let columns = [Name::new(b"x")?, Name::new(b"y")?, Name::new(b"m")?];
    let name = Name::new(b"t")?;
    match word {
        "plane" => Schema::new(name, &columns, 2, 2, 0),
        _ => Schema::new(name, &columns[..1], 1, 2, 0),
    }
}

// A store of these pages, if there are any, that fails at its k-th call.
fn store_of<S: Failing>(pages: Option<Vec<Page>>, k: u64) -> Option<S> {
    match pages {
        Some(pages) => S::of(pages, k),
        None => None,
    }
}

// The call at which a store fails, by the words for it and its table.
fn fault_of(words: &str) -> u64 {
    let mut words = Words::new(words);
    words.word();
    words.fault()
}

// The pages of a store, if there is one.
fn copied<S: PageStore>(alloc: Global, store: &mut Option<S>) -> Option<Vec<Page>> {
    match store {
        Some(store) => pages_of(alloc, store),
        None => None,
    }
}

// A store of no pages that fails at its k-th call.
fn new_store<S: PageStore + Failing>(alloc: Global, k: u64) -> Option<S>
    ensures { IfSome result (λ store. page_count (S.facts store) ≡ 0) }
{
    let store = S::of(Vec::new(alloc), k)?;
    if store.pages() == 0 {
        Some(store)
    } else {
        None
    }
}

impl<S: PageStore + Failing> Answering for Trial<S> {
    fn answer(&mut self, line: &str, told: &mut Told) {
        let (head, words) = cut(line);
        match kind_of(head) {
            Kind::Table => told.put(if self.tables.take(line) {
                "ok"
            } else {
                UNKNOWN
            }),
            Kind::Look => look(&self.tables, &mut self.store, line, told),
            Kind::Old => look(&self.tables, &mut self.old, words, told),
            Kind::Begin => self.begin(head, words, told),
            Kind::Create => self.create(words, told),
            Kind::Bring => self.bring(words, told),
            Kind::Close => self.close(told),
            Kind::Tree => match &mut self.tree {
                Some(tree) => ask(self.alloc, tree, line, told),
                None => told.put(NONE),
            },
        }
    }
}

impl<S: PageStore + Failing> Trial<S> {
    /// One with no tables, no tree and no store.
    pub fn new(alloc: Global) -> Trial<S> {
        Trial {
            alloc,
            tables: Tables::new(alloc),
            tree: None,
            store: None,
            old: None,
        }
    }

    // Opens the store that there is, or another one that is taken first; or tells how many pages that has.
    fn begin(&mut self, head: &str, words: &str, told: &mut Told) {
        if !words.is_empty() {
            self.hold(head, words);
        }
        match head {
            "store" => look(&self.tables, &mut self.store, "size", told),
            _ => self.open(told),
        }
    }

    // Takes a store of a table, or of the pages of the one that there is, in place of all that there is.
    fn hold(&mut self, head: &str, words: &str) {
        release(self.tree.take());
        self.store = match head {
            "again" => store_of(
                copied(self.alloc, &mut self.store),
                Words::new(words).fault(),
            ),
            _ => store_of(self.tables.pages(words), fault_of(words)),
        };
    }

    // Opens the store.
    fn open(&mut self, told: &mut Told) {
        match self.store.take() {
            Some(store) => {
                let opened = Tree::open(self.alloc, store);
                self.take(opened, told);
            }
            None => told.put(NONE),
        }
    }

    // Makes an empty table, by the word for its schema and that for where its store fails.
    fn create(&mut self, words: &str, told: &mut Told) {
        match (
            schema_of(cut(words).0),
            new_store(self.alloc, fault_of(words)),
        ) {
            (Ok(schema), Some(store)) => {
                let made = Tree::create(self.alloc, store, &schema);
                self.take(made, told);
            }
            _ => told.put(UNKNOWN),
        }
    }

    // Takes a tree, or the store that is handed back in its place.
    fn take(&mut self, made: Result<Tree<S>, Rejected<S, TreeFault>>, told: &mut Told) {
        match made {
            Ok(tree) => {
                release(self.tree.replace(tree));
                told.put("ok");
            }
            Err(refused) => self.take_back(refused, told),
        }
    }

    // Takes the store that is handed back.
    fn take_back(&mut self, refused: Rejected<S, TreeFault>, told: &mut Told) {
        self.store = Some(refused.store);
        told.fault(refused.fault);
    }

    // Closes the tree.
    fn close(&mut self, told: &mut Told) {
        match self.tree.take() {
            Some(tree) => match tree.close() {
                Ok(store) => {
                    self.store = Some(store);
                    told.put("ok");
                }
                Err(refused) => self.take_back(refused, told),
            },
            None => told.put(NONE),
        }
    }

    // Upgrades the table `old`, by the words for the call of its store that fails, and for that of the new one; or with no words once more
    // what the store of the old table has.
    fn bring(&mut self, words: &str, told: &mut Told) {
        if words.is_empty() {
            return self.upgrade(0, told);
        }
        let mut words = Words::new(words);
        self.old = store_of(self.tables.pages("old"), u64::from(words.short()));
        self.upgrade(u64::from(words.short()), told);
    }

    // Upgrades what the store of the old table has, over a new store that fails at its n-th call.
    fn upgrade(&mut self, n: u64, told: &mut Told) {
        let Some(new) = new_store(self.alloc, n) else {
            return told.put(UNKNOWN);
        };
        match &mut self.old {
            Some(old) => {
                let made = Tree::upgrade(self.alloc, old, new);
                self.take(made, told);
            }
            None => told.put(UNKNOWN),
        }
    }
}
