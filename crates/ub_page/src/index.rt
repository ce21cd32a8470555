ghost use Rattle.std.specs.Prelude.{◌≡◌, ◌≤◌, Ok, length, IfOk, IfErr};
ghost use Rattle.ub_zaddr.specs.Address.{last_address};
ghost use Rattle.ub_bytes.specs.Bytes.{padded};
ghost use Rattle.ub_page.specs.Index.{Node, IsNode, index_page, head_on, node_on, IsIndexKind, HasHead, IsHeadFault, IsIndexFault};

use crate::check::check_index;
use crate::entries::{Entries, MAX_ENTRIES, read_entries, write_entries};
use crate::header::MAX_LEVEL;
use std::marker::Model;
use ub_bytes::page::{u8_at, u16_at};
use ub_bytes::{Draft, Page};
use ub_region::Entry;
use ub_table::{PageFault, Schema};
use ub_zaddr::last;

// 'I', with which each page of an index begins.
const KIND: u8 = 0x49;

/// What the first bytes of a page of an index tell.
#[derive(Clone, Copy, PartialEq, Eq, Debug)]
pub struct Head {
    /// The level: 1 where the entries name regions, at most 16.
    pub level: u32,
    /// How many entries there are: 1 to 170.
    pub count: usize,
}

/// A page of an index that has been read: its level, and up to 170 entries in the order of their first keys. The tree reads an
/// index in its pages' own bytes (`check_index`, `entry_at`): this form is for tests, and for other readers of a file.
#[derive(Drop)]
pub struct IndexPage {
    level: u32,
    entries: Entries,
}

impl Model for IndexPage {
    ghost use Rattle.ub_page.specs.Index.{Node};

    ghost Value = { Node };

    ghost view = { λ p. record { level = p.level; entries = p.entries } };
}

impl IndexPage {
    /// The level: 1 where the entries name regions, at most 16.
    pub fn level(&self) -> u32
        ensures { result ≡ self.now.level }
    {
        self.level
    }

    /// The entries in order: at most 170.
    pub fn entries(&self) -> &[Entry]
        ensures entries { result.now ≡ self.now.entries }
        ensures few { length result.now ≤ MAX_ENTRIES }
    {
        self.entries.as_slice()
    }
}

/// Writes the page of these entries, at most 170, on a level of at most 16, over what was written before. Takes no memory.
pub fn write_index(entries: &[Entry], level: u32, draft: &mut Draft)
    requires few { length entries.now ≤ MAX_ENTRIES }
    requires high { level ≤ MAX_LEVEL }
    ensures { padded draft.new ≡ index_page (record { level = level; entries = entries.now }) }
{
    write_entries(KIND, level as u8, 0, entries, draft);
}

/// What a page of an index tells. Otherwise the first of these that holds: `WrongKind` (the first byte is not 'I'), `BadCount`
/// (not a level of 1 to 16, or not 1 to 170 entries), `BadRow` (an address above the last of the schema's space, a number
/// above 16777215, or page 0), `BadOrder` (the first keys do not ascend), `BadPadding` (a byte that no field uses is not
/// zero). Takes no memory. The tree asks `check_index`, which refuses the same and keeps no entry.
pub fn read_index(schema: &Schema, page: &Page) -> Result<IndexPage, PageFault>
    ensures found { IfOk result
        (λ node. IsNode (last_address schema.now.dims) node × (page.now ≡ index_page node)) }
    ensures exact { (node : Node) → IsNode (last_address schema.now.dims) node
        → page.now ≡ index_page node → result ≡ Ok node }
    ensures refused { IfErr result (IsIndexFault (last_address schema.now.dims) page.now) }
{
    let head = check_index(last(schema.shape()), page)?;
    Ok(IndexPage {
        level: head.level,
        entries: read_entries(page, head.count),
    })
}

/// What the first four bytes of a page tell, in constant time: the level, and how many entries there are. Otherwise the first
/// of these that holds: `WrongKind` (the first byte is not 'I'), `BadCount` (not a level of 1 to 16, or not 1 to 170 entries).
pub fn read_head(page: &Page) -> Result<Head, PageFault>
    ensures head { IfOk result (λ head. head ≡ head_on page.now) }
    ensures passed { IfOk result (λ _. IsIndexKind page.now × HasHead page.now) }
    ensures refused { IfErr result (IsHeadFault page.now) }
{
    if u8_at(page, 0) != KIND {
        return Err(PageFault::WrongKind);
    }
    let level = u32::from(u8_at(page, 1));
    let count = usize::from(u16_at(page, 2));
    if level == 0 || level > MAX_LEVEL || count == 0 || count > MAX_ENTRIES {
        return Err(PageFault::BadCount);
    }
    Ok(Head { level, count })
}
