// Names, columns, schemas, rows and keys.
use crate::samples::{Case, all_hold, holds, is_plane, plane, signed_table, table};
use ub_table::columns::MAX_COLUMNS;
use ub_table::{Columns, Key, Name, PageFault, Row, Schema, is_keyword};

// A text, and whether it is a name, and a keyword.
struct Text(&'static str, bool, bool);

static TEXTS: &[Text] = &[
    Text("t", true, false),
    Text("_a9", true, false),
    Text("selects", true, false),
    Text("abcdefghijklmnopqrstuvwxyz_01234", true, false),
    Text("", false, false),
    Text("9a", false, false),
    Text("a-b", false, false),
    Text("abcdefghijklmnopqrstuvwxyz_012345", false, false),
    Text("select", false, true),
    Text("SeLeCt", false, true),
    Text("values", false, true),
    Text("BY", false, true),
];

// Whether a text is a name that is kept.
fn keeps(text: &[u8]) -> bool {
    match Name::new(text) {
        Ok(name) => name.bytes() == text,
        Err(_) => false,
    }
}

impl Case<()> for Text {
    fn holds(&self, _: &()) -> bool {
        let bytes = self.0.as_bytes();
        (keeps(bytes) == self.1) & (is_keyword(bytes) == self.2)
    }
}

// Whether columns of the names of a table's first two are held in their order.
fn holds_columns(schema: &Schema) -> bool {
    let [first, second, ..] = schema.columns() else {
        return false;
    };
    let names = [*first, *second];
    let mut columns = Columns::new(*first);
    if columns.as_slice().len() < MAX_COLUMNS {
        columns.push(*second);
    }
    (columns.as_slice() == names.as_slice())
        & (Columns::from_slice(&names).as_slice() == names.as_slice())
}

// How many rows a page has, the mask of the signed dimensions, and why there is no table of two columns of a name with them: the count of
// rows, or the mask, is refused before.
struct Refused(u32, u32, PageFault);

static REFUSED: &[Refused] = &[
    Refused(65, 0, PageFault::BadCount),
    Refused(64, 4, PageFault::BadCount),
    Refused(64, 0, PageFault::BadName),
    Refused(64, 3, PageFault::BadName),
];

impl Case<Name> for Refused {
    fn holds(&self, t: &Name) -> bool {
        Schema::new(*t, &[*t, *t], 2, self.0, self.1).err() == Some(self.2)
    }
}

// Whether keys are in their order.
fn are_ordered() -> bool {
    let first = Key { z: 1, number: 8 };
    let low = Key { z: 1, number: 9 };
    let high = Key {
        z: 1 << 100,
        number: 1,
    };
    low.is_before(&high) & !high.is_before(&low) & first.is_before(&low) & !low.is_before(&low)
}

// A row, and its values in the columns of a table of two dimensions and two measures.
static ROW: Row = Row {
    number: 1,
    dims: [3, 4, 0, 0],
    measures: [-5, 6, 0, 0],
};

static VALUES: [i64; 4] = [3, 4, -5, 6];

// The same where the second dimension is signed.
static SIGNED_VALUES: [i64; 4] = [3, -2_147_483_644, -5, 6];

// Whether the columns of a table have these values in the row.
fn are_read(schema: &Schema, values: &[i64]) -> bool {
    if schema.columns().len() != values.len() {
        return false;
    }
    for column in 0..schema.columns().len() {
        if values[column] != schema.value_of(&ROW, column) {
            return false;
        }
    }
    true
}

// A number, and whether the first column of such a table, a dimension, and its last, a measure, can hold it.
struct Number(i128, bool, bool);

static NUMBERS: &[Number] = &[
    Number(-1, false, true),
    Number(0, true, true),
    Number(4_294_967_295, true, true),
    Number(4_294_967_296, false, true),
    Number(9_223_372_036_854_775_807, false, true),
    Number(9_223_372_036_854_775_808, false, false),
    Number(-9_223_372_036_854_775_808, false, true),
    Number(-9_223_372_036_854_775_809, false, false),
];

// Whether a column of a table, which it has, can hold a number.
fn fits(schema: &Schema, column: usize, number: i128) -> bool {
    column < schema.columns().len() && schema.fits(column, number)
}

// Whether the columns of a table can hold this number, or not.
fn is_fitting(schema: &Schema, number: &Number) -> bool {
    (fits(schema, 0, number.0) == number.1)
        & (schema.coordinate(0, number.0).is_some() == number.1)
        & (fits(schema, 3, number.0) == number.2)
}

// The same where the second dimension is signed.
impl Case<[Schema; 2]> for Number {
    fn holds(&self, tables: &[Schema; 2]) -> bool {
        is_fitting(&tables[0], self) & is_fitting(&tables[1], self)
    }
}

// How many dimensions there are, a mask, and whether there is a table with it: it has bits for the dimensions alone.
struct Mask(u32, u32, bool);

static MASKS: &[Mask] = &[
    Mask(1, 0, true),
    Mask(1, 1, true),
    Mask(1, 2, false),
    Mask(2, 3, true),
    Mask(2, 4, false),
    Mask(3, 7, true),
    Mask(3, 8, false),
    Mask(4, 15, true),
    Mask(4, 16, false),
    Mask(4, 1 << 31, false),
    Mask(1, u32::MAX, false),
];

// The mask is told by the table, or it is refused as BadCount.
impl Case<()> for Mask {
    fn holds(&self, _: &()) -> bool {
        match signed_table(b"xyzw", self.0, 2, self.1) {
            Ok(schema) => {
                self.2 & (schema.signed() == self.1) & (schema.copy().signed() == self.1)
            }
            Err(fault) => !self.2 & (fault == PageFault::BadCount),
        }
    }
}

// A value of a signed dimension, and the coordinate that stands for it; or a number that it doesn't have: those next to its values, and
// the ends of 64 and of 128 bits.
struct Signed(i128, Option<u32>);

static SIGNED: &[Signed] = &[
    Signed(-2_147_483_648, Some(0)),
    Signed(-2_147_483_647, Some(1)),
    Signed(-1, Some(2_147_483_647)),
    Signed(0, Some(2_147_483_648)),
    Signed(1, Some(2_147_483_649)),
    Signed(2_147_483_647, Some(4_294_967_295)),
    Signed(-2_147_483_649, None),
    Signed(2_147_483_648, None),
    Signed(4_294_967_295, None),
    Signed(-9_223_372_036_854_775_808, None),
    Signed(9_223_372_036_854_775_807, None),
    Signed(-18_446_744_073_709_551_615, None),
    Signed(18_446_744_073_709_551_615, None),
    Signed(i128::MIN, None),
    Signed(i128::MAX, None),
];

// The second dimension of a table has the number, for which that coordinate stands, or doesn't have it.
impl Case<Schema> for Signed {
    fn holds(&self, schema: &Schema) -> bool {
        let is_value = match self.1 {
            Some(coordinate) => i128::from(schema.value(1, coordinate)) == self.0,
            None => true,
        };
        is_value
            & (schema.coordinate(1, self.0) == self.1)
            & (fits(schema, 1, self.0) == self.1.is_some())
    }
}

#[test]
fn names_columns_and_schemas(rt: HostRuntime) {
    all_hold(&rt, "names", &(), TEXTS);
    holds(&rt, "keys", are_ordered());
    all_hold(&rt, "masks", &(), MASKS);
    let schema = plane().expect(&rt, "a plane");
    holds(&rt, "a plane", is_plane(&schema, 0));
    holds(&rt, "columns", holds_columns(&schema));
    all_hold(&rt, "two columns of a name", schema.name(), REFUSED);
}

#[test]
fn rows_and_signed_dimensions(rt: HostRuntime) {
    let schema = table(b"xymn", 2, 2).expect(&rt, "a table");
    let signed = signed_table(b"xymn", 2, 2, 2).expect(&rt, "a table");
    holds(&rt, "values", are_read(&schema, &VALUES));
    holds(&rt, "signed values", are_read(&signed, &SIGNED_VALUES));
    all_hold(&rt, "signed numbers", &signed, SIGNED);
    all_hold(&rt, "numbers that fit", &[schema, signed], NUMBERS);
}
