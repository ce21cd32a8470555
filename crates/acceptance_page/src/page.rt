// Headers, directories and pages of an index that are written and read, and pages that are refused.
use crate::samples::{Case, all_hold, holds, is_plane, page_of, plane};
use ub_page::{
    Draft, Entry, Head, Page, check_index, entry_at, first_at, read_directory, read_head,
    read_header, read_index, slot_in, write_directory, write_header, write_index,
};
use ub_table::{Key, PageFault, Schema};

// The bytes of a header of a table of five rows in three regions, whose index has its root on
// page 4: the table's numbers, and the names t, x, y and m.
const HEADER: &[(usize, u8)] = &[
    (0, 0x55),
    (1, 0x42),
    (2, 0x54),
    (3, 0x52),
    (4, 3),
    (6, 2),
    (7, 1),
    (8, 2),
    (15, 6),
    (19, 5),
    (23, 3),
    (27, 4),
    (31, 1),
    (32, 1),
    (33, b't'),
    (65, 1),
    (66, b'x'),
    (98, 1),
    (99, b'y'),
    (131, 1),
    (132, b'm'),
];

// The bytes of a directory of regions from 0, 10 and 13 on, kept on the pages 1, 3 and 2.
const DIRECTORY: &[(usize, u8)] = &[
    (0, 0x44),
    (3, 3),
    (39, 1),
    (55, 10),
    (63, 3),
    (79, 13),
    (87, 2),
];

// And of a longer one, which names page 7 as the next.
const LONGER: &[(usize, u8)] = &[
    (0, 0x44),
    (3, 4),
    (7, 7),
    (39, 1),
    (55, 10),
    (63, 3),
    (79, 13),
    (87, 2),
    (103, 14),
    (111, 9),
];

// The bytes of a page of an index that leads to the same regions.
const INDEX: &[(usize, u8)] = &[
    (0, 0x49),
    (1, 1),
    (3, 3),
    (39, 1),
    (55, 10),
    (63, 3),
    (79, 13),
    (87, 2),
];

// The entries of both: regions whose first keys have these addresses, and their pages; and one more of the longer one.
const FIRST: Entry = Entry {
    first: Key { z: 0, number: 0 },
    page: 1,
};

const SECOND: Entry = Entry {
    first: Key { z: 10, number: 0 },
    page: 3,
};

const THIRD: Entry = Entry {
    first: Key { z: 13, number: 0 },
    page: 2,
};

const FOURTH: Entry = Entry {
    first: Key { z: 14, number: 0 },
    page: 9,
};

// An entry of another page.
const SEVENTH: Entry = Entry {
    first: Key { z: 7, number: 0 },
    page: 7,
};

// What a page tells.
enum Told {
    // The next row's number, how many rows and regions a table has, the page of its index's root, and the level of that; the mask of the
    // signed dimensions.
    Header([u32; 5], u32),
    // The entries of a directory, and the page that it names as the next.
    Directory(&'static [Entry], u32),
    // The entries of a page of an index, and its level.
    Index(&'static [Entry], u32),
}

// Writes what the page of a header tells, and tells whether it is this of a table as the plane.
fn is_header(page: &Page, numbers: &[u32; 5], signed: u32, draft: &mut Draft) -> bool {
    let Ok(read) = read_header(page) else {
        return false;
    };
    write_header(&read, draft);
    let told = [read.next, read.rows, read.regions, read.root, read.levels];
    (told == *numbers) & !read.unclean & is_plane(&read.schema, signed)
}

// Writes what a page tells, and tells whether it is this.
fn is_told(schema: &Schema, page: &Page, told: &Told, draft: &mut Draft) -> bool {
    match told {
        Told::Header(numbers, signed) => is_header(page, numbers, *signed, draft),
        Told::Directory(entries, next) => match read_directory(schema, page) {
            Ok(read) => {
                write_directory(read.entries(), read.next(), draft);
                (read.entries() == *entries) & (read.next() == *next)
            }
            Err(_) => false,
        },
        Told::Index(entries, level) => match read_index(schema, page) {
            Ok(read) => {
                write_index(read.entries(), (*level).min(16), draft);
                (read.entries() == *entries) & (read.level() == *level)
            }
            Err(_) => false,
        },
    }
}

// Whether this is read from a page, and written as that page.
fn is_written(schema: &Schema, page: &Page, told: &Told, draft: &mut Draft) -> bool {
    is_told(schema, page, told, draft) & (draft.page() == page)
}

// The bytes of a page, one of them that is changed, and what is told of it.
struct Written(&'static [(usize, u8)], &'static [(usize, u8)], Told);

static WRITTEN: &[Written] = &[
    Written(HEADER, &[], Told::Header([6, 5, 3, 4, 1], 0)),
    // The level of the root, up to the last one there can be.
    Written(HEADER, &[(31, 2)], Told::Header([6, 5, 3, 4, 2], 0)),
    Written(HEADER, &[(31, 16)], Told::Header([6, 5, 3, 4, 16], 0)),
    // The mask of the signed dimensions.
    Written(HEADER, &[(9, 0)], Told::Header([6, 5, 3, 4, 1], 0)),
    Written(HEADER, &[(9, 1)], Told::Header([6, 5, 3, 4, 1], 1)),
    Written(HEADER, &[(9, 2)], Told::Header([6, 5, 3, 4, 1], 2)),
    Written(HEADER, &[(9, 3)], Told::Header([6, 5, 3, 4, 1], 3)),
    Written(DIRECTORY, &[], Told::Directory(&[FIRST, SECOND, THIRD], 0)),
    Written(INDEX, &[], Told::Index(&[FIRST, SECOND, THIRD], 1)),
];

static LONGER_TOLD: Told = Told::Directory(&[FIRST, SECOND, THIRD, FOURTH], 7);

// Each page is written over the longer directory, and over the page of an index of four entries on level 7.
impl Case<Schema> for Written {
    fn holds(&self, schema: &Schema) -> bool {
        let page = page_of(self.0, self.1);
        let mut draft = Draft::new();
        let is_longer = is_written(schema, &page_of(LONGER, &[]), &LONGER_TOLD, &mut draft);
        let is_over_longer = is_written(schema, &page, &self.2, &mut draft);
        write_index(&[SEVENTH; 4], 7, &mut draft);
        is_longer & is_over_longer & is_written(schema, &page, &self.2, &mut draft)
    }
}

// The address and the number of a key, and the slot of that page to which it falls.
struct Slot(u128, u32, usize);

static SLOTS: &[Slot] = &[
    Slot(0, 0, 0),
    Slot(9, 5, 0),
    Slot(10, 0, 1),
    Slot(12, 1, 1),
    Slot(13, 0, 2),
    Slot(99, 0, 2),
];

impl Case<Page> for Slot {
    fn holds(&self, page: &Page) -> bool {
        let key = Key {
            z: self.0,
            number: self.1,
        };
        slot_in(page, 3, &key) == self.2
    }
}

// The last address of the plane.
const LAST: u128 = 0xffff_ffff_ffff_ffff;

// Whether the page is looked into where it stands.
fn is_looked_into(page: &Page) -> bool {
    let head = Ok(Head { level: 1, count: 3 });
    (read_head(page) == head)
        & (check_index(LAST, page) == head)
        & (entry_at(page, 1) == SECOND)
        & (first_at(page, 2).z == 13)
}

// What a page is read as.
#[derive(Clone, Copy)]
enum Kind {
    Header,
    Directory,
    // A page of an index is checked too.
    Index,
}

// Bytes that are changed in a page and stay so, and then bytes with the fault that is told once
// each is changed too.
struct Faults {
    kind: Kind,
    bytes: &'static [(usize, u8)],
    before: &'static [(usize, u8)],
    // Whether a byte stays as it is changed, for those that follow.
    are_kept: bool,
    rows: &'static [(usize, u8, PageFault)],
}

static FAULTS: &[Faults] = &[
    Faults {
        kind: Kind::Header,
        bytes: HEADER,
        before: &[],
        are_kept: true,
        rows: &[
            (4095, 1, PageFault::BadPadding),
            (34, 1, PageFault::BadName),
            (8, 1, PageFault::BadCount),
            (5, 1, PageFault::Unclean),
            (4, 1, PageFault::OldFormat),
            (4, 4, PageFault::WrongKind),
            (4, 0, PageFault::WrongKind),
            (4, 2, PageFault::OldFormat),
            (3, 0, PageFault::WrongKind),
        ],
    },
    // Each byte is changed alone.
    Faults {
        kind: Kind::Header,
        bytes: HEADER,
        before: &[],
        are_kept: false,
        rows: &[
            (0, 0, PageFault::WrongKind),
            (4, 4, PageFault::WrongKind),
            (4, 255, PageFault::WrongKind),
            (4, 1, PageFault::OldFormat),
            (4, 2, PageFault::OldFormat),
            (5, 2, PageFault::BadCount),
            (27, 0, PageFault::BadCount),
            (31, 0, PageFault::BadCount),
            (31, 17, PageFault::BadCount),
            (30, 1, PageFault::BadCount),
            // The mask has bits for the two dimensions alone; the two bytes behind it are zero.
            (9, 4, PageFault::BadCount),
            (9, 5, PageFault::BadCount),
            (9, 8, PageFault::BadCount),
            (9, 16, PageFault::BadCount),
            (9, 255, PageFault::BadCount),
            (10, 1, PageFault::BadPadding),
            (11, 1, PageFault::BadPadding),
        ],
    },
    // Two bytes that are wrong: the first of the order is told. The mask is a count: it comes after
    // the state and before the names.
    Faults {
        kind: Kind::Header,
        bytes: HEADER,
        before: &[(9, 4)],
        are_kept: false,
        rows: &[
            (4, 2, PageFault::OldFormat),
            (5, 1, PageFault::Unclean),
            (32, 0, PageFault::BadCount),
            (99, b'x', PageFault::BadCount),
        ],
    },
    // In an older format nothing more is looked at.
    Faults {
        kind: Kind::Header,
        bytes: HEADER,
        before: &[(10, 1)],
        are_kept: false,
        rows: &[(32, 0, PageFault::BadName), (4, 1, PageFault::OldFormat)],
    },
    // One dimension: it is the first that may be signed, and not the second; the names are one too
    // many.
    Faults {
        kind: Kind::Header,
        bytes: HEADER,
        before: &[(6, 1)],
        are_kept: false,
        rows: &[(9, 2, PageFault::BadCount), (9, 1, PageFault::BadPadding)],
    },
    Faults {
        kind: Kind::Directory,
        bytes: DIRECTORY,
        before: &[],
        are_kept: true,
        rows: &[
            (4095, 1, PageFault::BadPadding),
            (55, 13, PageFault::BadOrder),
            (39, 0, PageFault::BadRow),
            (3, 171, PageFault::BadCount),
            (0, 0, PageFault::WrongKind),
        ],
    },
    Faults {
        kind: Kind::Index,
        bytes: INDEX,
        before: &[],
        are_kept: true,
        rows: &[
            (4095, 1, PageFault::BadPadding),
            (15, 1, PageFault::BadPadding),
            (4, 1, PageFault::BadPadding),
            (55, 13, PageFault::BadOrder),
            (39, 0, PageFault::BadRow),
            (1, 17, PageFault::BadCount),
            (1, 0, PageFault::BadCount),
            (1, 16, PageFault::BadRow),
            (3, 171, PageFault::BadCount),
            (3, 0, PageFault::BadCount),
            (0, 0x44, PageFault::WrongKind),
        ],
    },
];

// Whether the page is refused so.
fn is_refused(kind: Kind, schema: &Schema, page: &Page, fault: PageFault) -> bool {
    let told = match kind {
        Kind::Header => read_header(page).err(),
        Kind::Directory => read_directory(schema, page).err(),
        Kind::Index => read_index(schema, page).err(),
    };
    let is_checked = match kind {
        Kind::Index => check_index(LAST, page) == Err(fault),
        _ => true,
    };
    is_checked & (told == Some(fault))
}

impl Case<Schema> for Faults {
    fn holds(&self, schema: &Schema) -> bool {
        let mut page = page_of(self.bytes, self.before);
        for row in self.rows {
            let at = row.0 % 4096;
            let old = page[at];
            page[at] = row.1;
            if !is_refused(self.kind, schema, &page, row.2) {
                return false;
            }
            if !self.are_kept {
                page[at] = old;
            }
        }
        true
    }
}

#[test]
fn pages_are_written_and_read_or_refused(rt: HostRuntime) {
    let schema = plane().expect(&rt, "a table");
    all_hold(&rt, "pages that are written and read", &schema, WRITTEN);
    let index = page_of(INDEX, &[]);
    holds(&rt, "an index in its place", is_looked_into(&index));
    all_hold(&rt, "slots", &index, SLOTS);
    all_hold(&rt, "bytes that are refused", &schema, FAULTS);
}
