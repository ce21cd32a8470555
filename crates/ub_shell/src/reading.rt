//! What a command line named, read again. No file is changed.

ghost use Rattle.std.specs.Prelude.{◌↔◌, ◌≡◌, IsTrue};
ghost use Rattle.ub_files.specs.Files.{standard_input};
ghost use Rattle.ub_shell.specs.Unchanged.{AreLeft};

use std::alloc::Global;
use ub_files::Files;
use ub_store::PageStore;
use ub_table::Schema;
use ub_tree::Tree;
use ub_words::STANDARD_INPUT;

/// The text at a path, if one is named; standard input, which can't be read twice, is the text that was kept of it. Nothing where
/// memory is refused, or the file can't be read.
pub(crate) fn read_text<F: Files>(
    alloc: Global,
    files: &mut F,
    path: Option<&str>,
    input: Option<&[u8]>,
) -> Option<Vec<u8>>
    ensures left { AreLeft (F.facts files.old) (F.facts files.new)
        (F.clock files.old) (F.clock files.new) }
{
    let Some(path) = path else {
        return None;
    };
    if is_standard_input(path) {
        return copy_of(alloc, input);
    }
    match files.read(path) {
        Ok(text) => Some(text),
        Err(_) => None,
    }
}

// Whether the path is that of standard input.
fn is_standard_input(path: &str) -> bool
    ensures { IsTrue result ↔ (path.now ≡ standard_input) }
{
    path == STANDARD_INPUT
}

// A copy of a text, if there is one and memory for it.
fn copy_of(alloc: Global, text: Option<&[u8]>) -> Option<Vec<u8>> {
    match text {
        Some(text) => Vec::from_slice(alloc, text).ok(),
        None => None,
    }
}

/// The schema of the table in the table file at a path, if one is named and can be asked.
pub(crate) fn ask_schema<F: Files>(
    alloc: Global,
    files: &mut F,
    path: Option<&str>,
) -> Option<Schema>
    ensures left { AreLeft (F.facts files.old) (F.facts files.new)
        (F.clock files.old) (F.clock files.new) }
{
    let Some(path) = path else {
        return None;
    };
    match files.open(path) {
        Ok(store) => ask_store(alloc, files, path, store),
        Err(_) => None,
    }
}

// The schema of the table in the store of a table file, which is put back.
fn ask_store<F: Files>(alloc: Global, files: &mut F, path: &str, store: F::Store) -> Option<Schema>
    ensures left { AreLeft (F.facts files.old) (F.facts files.new)
        (F.clock files.old) (F.clock files.new) }
{
    let (store, schema) = schema_in(alloc, store);
    files.put_back(path, store);
    schema
}

// The schema of the table in a store, and the store.
fn schema_in<S: PageStore>(alloc: Global, store: S) -> (S, Option<Schema>) {
    match Tree::open(alloc, store) {
        Ok(tree) => schema_of(tree),
        Err(refused) => (refused.store, None),
    }
}

// The schema of a tree's table, and its store.
fn schema_of<S: PageStore>(tree: Tree<S>) -> (S, Option<Schema>) {
    let schema = tree.schema().copy();
    match tree.close() {
        Ok(store) => (store, Some(schema)),
        Err(refused) => (refused.store, None),
    }
}
