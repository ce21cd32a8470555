ghost use Rattle.std.specs.Prelude.{ℕ, ◌≡◌, ◌≢◌, ◌+◌, ◌-◌, ◌*◌, ◌≤◌, ◌<◌, ◌^◌, ◌↔◌, ◌++◌, false, if◌then◌else◌, length, replicate, IsTrue, IsOk, IfOk, IfErr};
ghost use Rattle.std.specs.List.{AllByRecursion, flat_map};
ghost use Rattle.ub_bytes.specs.Bytes.{number_bytes, padded};
ghost use Rattle.ub_page.specs.Header.{numbers_of, names_of, numbers_on, mask_on, columns_on, name_bytes, name_on, names_on, header_page, header_page_of, directory_pages, AreInRange, AreInRangeOf, AreLevels, IsHeader, IsHeaderOf, IsOldHeader, AreSame, IsOfVersion, IsFaultOf, IsHeaderFault, IsOldHeaderFault, IsNameOn, AreNamesOn, HasNames};
ghost use Rattle.ub_page.specs.declared.header.OldHeader as spec;
ghost use Rattle.ub_table.specs.Name.{IsName};
ghost use Rattle.ub_table.specs.Schema.{AreNumbers};

use crate::entries::MAX_ENTRIES;
use ub_bytes::page::{are_equal, is_same, u8_at, u32_at};
use ub_bytes::{Draft, Page};
use ub_table::name::MAX_NAME_LEN;
use ub_table::schema::{MAX_ROWS, is_mask};
use ub_table::{Columns, MAX_ROW_NUMBER, Name, PageFault, Schema};

// 'UBTR', with which each header begins.
const KIND: u32 = 0x5542_5452;

/// The version of the headers that are written. Those before it are 1 and 2.
pub const VERSION: u8 = 3;

/// The first version whose headers tell which dimensions are signed.
pub const FIRST_SIGNED: u8 = 3;

/// The first version whose headers tell of an index. Those before it tell of a directory.
pub const FIRST_INDEXED: u8 = 2;

/// The highest level of the root of an index; the lowest one is 1.
pub const MAX_LEVEL: u32 = 16;

/// What the first page of a table's file tells: the schema, the counts, and where the root of its index is.
#[derive(Drop)]
pub struct Header {
    /// What the table is made of.
    pub schema: Schema,
    /// The number that the next row gets: 1 to 16777216.
    pub next: u32,
    /// How many rows the table has: fewer than `next`.
    pub rows: u32,
    /// How many regions the table has: at least 1.
    pub regions: u32,
    /// The page of the index's root: at least 1.
    pub root: u32,
    /// The level of the root: 1 to 16.
    pub levels: u32,
    /// Whether the table was changed and not closed since.
    pub unclean: bool,
}

/// A header of a version before the one that is written. None of its dimensions is signed.
#[derive(Drop)]
pub struct OldHeader {
    /// 1 or 2.
    pub version: u8,
    /// In version 2 as it is written now. In version 1 the root is the first page of the directory, and the levels are how
    /// many pages that has: one for each 170 regions.
    pub header: Header,
}

// The numbers of a header, as they stand on its page.
#[derive(Clone, Copy)]
pub(crate) struct Numbers {
    pub state: u8,
    pub dims: u8,
    pub measures: u8,
    pub page_rows: u8,
    pub signed: u8,
    pub next: u32,
    pub rows: u32,
    pub regions: u32,
    pub root: u32,
    pub levels: u32,
}

/// Writes the page of a header, clean or not, over what was written before. Each of its numbers is in its range, so that a
/// page can hold the header, and the reader takes the page where it is clean. Takes no memory.
pub fn write_header(header: &Header, draft: &mut Draft)
    requires { AreInRange (numbers_of header.now) }
    ensures page { padded draft.new ≡ header_page header.now }
    ensures header { IsHeader header.now }
{
    spell(VERSION, header, draft);
}

// Writes the page of a header in a version.
fn spell(version: u8, header: &Header, draft: &mut Draft)
    requires { AreInRangeOf version (numbers_of header.now) }
    ensures page { padded draft.new ≡ header_page_of version header.now }
    ensures small { (header.now.regions < 2 ^ 32) × (header.now.root < 2 ^ 32) }
    ensures names { AllByRecursion IsName (names_of header.now) }
{
    draft.clear();
    draft.put_u32(KIND);
    draft.put_u8(version);
    draft.put_u8(state_of(header.unclean));
    draft.put_u8(header.schema.dims() as u8);
    draft.put_u8(header.schema.measures() as u8);
    draft.put_u8(header.schema.page_rows() as u8);
    draft.put_u8(header.schema.signed() as u8);
    draft.put_u16(0);
    draft.put_u32(header.next);
    draft.put_u32(header.rows);
    draft.put_u32(header.regions);
    draft.put_u32(header.root);
    draft.put_u32(header.levels);
    put_name(draft, header.schema.name());
    put_names(draft, header.schema.columns());
}

// The state byte of a header.
fn state_of(unclean: bool) -> u8
    ensures { result ≡ (if unclean then 1 else 0) }
{
    u8::from(unclean)
}

fn put_names(draft: &mut Draft, names: &[Name])
    requires { length draft.old + 33 * length names.now ≤ 4096 }
    ensures bytes { draft.new ≡ draft.old ++ flat_map (λ name. name_bytes name) names.now }
    ensures len { length draft.new ≡ length draft.old + 33 * length names.now }
    ensures names { AllByRecursion IsName names.now }
{
    for name in names {
        put_name(draft, name);
    }
}

fn put_name(draft: &mut Draft, name: &Name)
    requires { length draft.old + 33 ≤ 4096 }
    ensures bytes { draft.new ≡ draft.old ++ name_bytes name.now }
    ensures len { length draft.new ≡ length draft.old + 33 }
    ensures name { IsName name.now }
{
    let block = block_of(name);
    draft.put_u8(name.bytes().len() as u8);
    draft.put_bytes(&block);
}

// The bytes of a name, and zeros after them.
fn block_of(name: &Name) -> [u8; MAX_NAME_LEN]
    ensures { result ≡ name.now ++ replicate (32 - length name.now) 0 }
{
    let text = name.bytes();
    let mut block = [0; MAX_NAME_LEN];
    block[..text.len()].copy_from_slice(text);
    block
}

/// The header that the page holds, where it is clean. Otherwise the first of these that holds: `WrongKind` (the first
/// four bytes are not 'UBTR', or the version is none from 1 to 3), `OldFormat` (the version is 1 or 2), `Unclean`,
/// `BadCount` (a number is out of its range, or the mask has a bit past the dimensions), `BadName` (a name breaks the rule
/// for names, its unused bytes are not zero, or two columns have one name), `BadPadding` (another byte is not zero).
pub fn read_header(page: &Page) -> Result<Header, PageFault>
    ensures found { IfOk result (λ h. IsHeader h × (h.unclean ≡ false) × (page.now ≡ header_page h)) }
    ensures exact { (h : Header) → IsHeader h → h.unclean ≡ false → page.now ≡ header_page h
        → IsOk result × IfOk result (λ read. AreSame read h) }
    ensures refused { IfErr result (IsHeaderFault page.now) }
{
    if u32_at(page, 0) == KIND && (1..VERSION).contains(&u8_at(page, 4)) {
        return Err(PageFault::OldFormat);
    }
    read_as(VERSION, page)
}

/// The header of an older version that the page holds, where it is clean. Otherwise the first of these that holds:
/// `WrongKind` (the first four bytes are not 'UBTR', or the version is neither 1 nor 2), `Unclean`, `BadCount` (a number is
/// out of the range that it has in that version), `BadName` (as `read_header` tells it), `BadPadding` (another byte is not
/// zero, also the one that holds the mask since).
pub fn read_old_header(page: &Page) -> Result<OldHeader, PageFault>
    ensures found { IfOk result (λ old. IsOldHeader old × (old.header.unclean ≡ false)
        × (page.now ≡ header_page_of old.version old.header)) }
    ensures exact { (old : spec.OldHeader) → IsOldHeader old → old.header.unclean ≡ false
        → page.now ≡ header_page_of old.version old.header → IsOk result
        × IfOk result (λ read. (read.version ≡ old.version) × AreSame read.header old.header) }
    ensures refused { IfErr result (IsOldHeaderFault page.now) }
{
    let version = u8_at(page, 4);
    if !(1..VERSION).contains(&version) {
        return Err(PageFault::WrongKind);
    }
    let header = read_as(version, page)?;
    Ok(OldHeader { version, header })
}

// The clean header that the page holds in a version. Otherwise the first refusal that holds, `WrongKind` being also that of
// another version. Before the first version that tells of signed dimensions, the byte of the mask is padding.
fn read_as(version: u8, page: &Page) -> Result<Header, PageFault>
    ensures found { IfOk result
        (λ h. IsHeaderOf version h × (h.unclean ≡ false) × (page.now ≡ header_page_of version h)) }
    ensures exact { (h : Header) → IsHeaderOf version h → h.unclean ≡ false
        → page.now ≡ header_page_of version h → IsOk result × IfOk result (λ read. AreSame read h) }
    ensures refused { IfErr result (IsFaultOf version page.now) }
{
    let header = parts_on(version, page)?;
    let mut draft = Draft::new();
    spell(version, &header, &mut draft);
    if !is_same(draft.page(), page) {
        return Err(PageFault::BadPadding);
    }
    Ok(header)
}

// The header of this version whose parts stand on the page.
fn parts_on(version: u8, page: &Page) -> Result<Header, PageFault>
    ensures numbers { IfOk result
        (λ h. (numbers_of h ≡ numbers_on version page.now)
        × AreInRangeOf version (numbers_on version page.now)) }
    ensures names { IfOk result (λ h. (h.schema.name ≡ name_on 32 page.now)
        × (h.schema.columns ≡ names_on 65 (columns_on page.now) page.now)) }
    ensures clean { IfOk result
        (λ h. IsOfVersion version page.now × (h.unclean ≡ false) × HasNames (columns_on page.now) page.now) }
    ensures small { IfOk result (λ h. (h.regions < 2 ^ 32) × (h.root < 2 ^ 32)) }
    ensures refused { IfErr result (IsFaultOf version page.now) }
    ensures early { IfErr result (λ e. e ≢ PageFault.BadPadding) }
{
    if u32_at(page, 0) != KIND || u8_at(page, 4) != version {
        return Err(PageFault::WrongKind);
    }
    let numbers = read_numbers(version, page);
    if numbers.state == 1 {
        return Err(PageFault::Unclean);
    }
    if !are_in_range(version, &numbers) {
        return Err(PageFault::BadCount);
    }
    let schema = read_schema(page, &numbers)?;
    Ok(Header {
        schema,
        next: numbers.next,
        rows: numbers.rows,
        regions: numbers.regions,
        root: numbers.root,
        levels: numbers.levels,
        unclean: false,
    })
}

fn read_numbers(version: u8, page: &Page) -> Numbers
    ensures { result ≡ numbers_on version page.now }
{
    Numbers {
        state: u8_at(page, 5),
        dims: u8_at(page, 6),
        measures: u8_at(page, 7),
        page_rows: u8_at(page, 8),
        signed: mask_at(version, page),
        next: u32_at(page, 12),
        rows: u32_at(page, 16),
        regions: u32_at(page, 20),
        root: u32_at(page, 24),
        levels: u32_at(page, 28),
    }
}

// The mask of signed dimensions on a page of this version.
fn mask_at(version: u8, page: &Page) -> u8
    ensures { result ≡ mask_on version page.now }
{
    if version < FIRST_SIGNED {
        return 0;
    }
    u8_at(page, 9)
}

// The numbers are in the ranges that they have in this version.
fn are_in_range(version: u8, numbers: &Numbers) -> bool
    ensures { IsTrue result ↔ AreInRangeOf version numbers.now }
{
    let rows = (1..=MAX_ROW_NUMBER + 1).contains(&numbers.next) && numbers.rows < numbers.next;
    let pages = numbers.regions >= 1 && numbers.root >= 1 && are_levels(version, numbers);
    numbers.state <= 1 && has_counts(numbers) && rows && pages
}

// The level of an index's root, or in a version without one how many pages the directory has.
fn are_levels(version: u8, numbers: &Numbers) -> bool
    ensures { IsTrue result ↔ AreLevels version numbers.now }
{
    if version < FIRST_INDEXED {
        return u64::from(numbers.levels) == pages_of_directory(numbers.regions);
    }
    (1..=MAX_LEVEL).contains(&numbers.levels)
}

// How many pages a directory of so many regions has.
fn pages_of_directory(regions: u32) -> u64
    ensures { result ≡ directory_pages regions }
{
    let most = MAX_ENTRIES as u64;
    (u64::from(regions) + (most - 1)) / most
}

// The numbers that a schema has are in their ranges.
fn has_counts(numbers: &Numbers) -> bool
    ensures { IsTrue result ↔ AreNumbers (numbers.now.dims + numbers.now.measures)
        numbers.now.dims numbers.now.page_rows numbers.now.signed }
{
    let counts = (1..=4).contains(&numbers.dims)
        && numbers.measures <= 4
        && (2..=MAX_ROWS as u8).contains(&numbers.page_rows);
    counts && is_mask(u32::from(numbers.dims), u32::from(numbers.signed))
}

// The schema that the names on the page make with these numbers, or `BadName`.
fn read_schema(page: &Page, numbers: &Numbers) -> Result<Schema, PageFault>
    requires { AreNumbers (numbers.now.dims + numbers.now.measures)
        numbers.now.dims numbers.now.page_rows numbers.now.signed }
    ensures names { IfOk result (λ s. (s.name ≡ name_on 32 page.now)
        × (s.columns ≡ names_on 65 (numbers.now.dims + numbers.now.measures) page.now)) }
    ensures numbers { IfOk result (λ s. (s.dims ≡ numbers.now.dims)
        × (s.page_rows ≡ numbers.now.page_rows) × (s.signed ≡ numbers.now.signed)) }
    ensures valid { IfOk result (λ _. HasNames (numbers.now.dims + numbers.now.measures) page.now) }
    ensures refused { IfErr result (λ e. (e ≡ PageFault.BadName)
        × (¬ (HasNames (numbers.now.dims + numbers.now.measures) page.now))) }
{
    let name = read_name(page, 32)?;
    let columns = read_columns(page, usize::from(numbers.dims + numbers.measures))?;
    Schema::new(
        name,
        columns.as_slice(),
        u32::from(numbers.dims),
        u32::from(numbers.page_rows),
        u32::from(numbers.signed),
    )
}

// The names of so many columns, or `BadName`.
fn read_columns(page: &Page, count: usize) -> Result<Columns, PageFault>
    requires some { 1 ≤ count }
    requires few { count ≤ 8 }
    ensures names { IfOk result
        (λ columns. (columns ≡ names_on 65 count page.now) × AreNamesOn 65 count page.now) }
    ensures refused { IfErr result (λ e. (e ≡ PageFault.BadName) × (¬ (AreNamesOn 65 count page.now))) }
{
    let mut columns = Columns::new(read_name(page, 65)?);
    for i in 1..count {
        columns.push(read_name(page, 65 + 33 * i)?);
    }
    Ok(columns)
}

// The name that stands at an offset, or `BadName`.
fn read_name(page: &Page, offset: usize) -> Result<Name, PageFault>
    requires { offset + 33 ≤ 4096 }
    ensures name { IfOk result (λ name. (name ≡ name_on offset page.now) × IsNameOn offset page.now) }
    ensures refused { IfErr result (λ e. (e ≡ PageFault.BadName) × (¬ (IsNameOn offset page.now))) }
{
    let len = usize::from(u8_at(page, offset));
    let block = &page[offset + 1..offset + 33];
    if len > MAX_NAME_LEN {
        return Err(PageFault::BadName);
    }
    let name = Name::new(&block[..len])?;
    if !are_equal(&block_of(&name), block) {
        return Err(PageFault::BadName);
    }
    Ok(name)
}
