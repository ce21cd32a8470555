use crate::marks::cut;
use std::alloc::Global;
use ub_memory_files::MemFiles;
use ub_store::{MAX_PAGES, MemStore, Page};

/// Damages a table file, or copies one, by a line that begins with the sign for it. It says whether there was such a file, and
/// such a place in it. What stands beside a file isn't copied with it, and is gone where the file is damaged.
pub fn is_damaged(alloc: Global, files: &mut MemFiles, line: &str) -> bool {
    let (sign, words) = cut(line);
    let (name, rest) = cut(words);
    let done = match sign {
        "~" => put_bytes(alloc, files, name, rest),
        "|" => cut_file(alloc, files, name, rest),
        _ => copy_file(alloc, files, name, rest),
    };
    done.is_some()
}

// The pages of the table file of this name, if there is one.
fn pages_of(alloc: Global, files: &MemFiles, name: &str) -> Option<Vec<Page>> {
    files.table(name)?.copy_pages(alloc).ok()
}

// Puts a table file of these pages.
fn put_pages(files: &mut MemFiles, name: &str, pages: Vec<Page>) -> Option<()> {
    if pages.len() > MAX_PAGES as usize {
        return None;
    }
    files.put_table(name, MemStore::of(pages)).ok()
}

// Puts bytes into the table file of this name, by the words for the first one's offset and for each.
fn put_bytes(alloc: Global, files: &mut MemFiles, name: &str, words: &str) -> Option<()> {
    let (offset, bytes) = cut(words);
    let offset = offset.parse::<u32>().ok()?;
    let mut pages = pages_of(alloc, files, name)?;
    write_bytes(pages.as_mut_slice(), offset, bytes)?;
    put_pages(files, name, pages)
}

// Writes bytes into pages from this offset on, by the words for them.
fn write_bytes(pages: &mut [Page], offset: u32, bytes: &str) -> Option<()> {
    let mut next = offset;
    for byte in bytes.split_whitespace() {
        let page = pages.get_mut((next / 4096) as usize)?;
        page[(next % 4096) as usize] = byte.parse::<u8>().ok()?;
        next = next.checked_add(1)?;
    }
    Some(())
}

// Cuts the table file of this name to so many pages, which it has.
fn cut_file(alloc: Global, files: &mut MemFiles, name: &str, count: &str) -> Option<()> {
    let count = count.parse::<usize>().ok()?;
    let mut pages = pages_of(alloc, files, name)?;
    if pages.len() < count {
        return None;
    }
    pages.truncate(count);
    put_pages(files, name, pages)
}

// Makes a table file of another one's pages.
fn copy_file(alloc: Global, files: &mut MemFiles, from: &str, to: &str) -> Option<()> {
    let pages = pages_of(alloc, files, from)?;
    put_pages(files, to, pages)
}
