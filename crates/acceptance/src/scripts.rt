// Scripts that no transcript can hold: bytes that are no text, each single byte, and very many statements.
use crate::worked::DATA;
use std::alloc::{AllocError, Global};
use ub_script::{Over, Summary, try_text};

// A script on the worked table, how many statements it has, how many of them are refused, and what is written.
struct Case {
    script: &'static [u8],
    statements: u64,
    refused: u64,
    text: &'static str,
}

static CASES: [Case; 12] = [
    // A byte that is zero.
    Case {
        script: b"\0",
        statements: 1,
        refused: 1,
        text: "! BadByte at 0\n",
    },
    Case {
        script: b"SELECT x FROM t\0; SELECT m FROM t LIMIT 0\0",
        statements: 2,
        refused: 2,
        text: "! BadByte at 15\n! BadByte at 41\n",
    },
    Case {
        script: b"SELECT x -- \0\0\n FROM t WHERE x = 0",
        statements: 1,
        refused: 0,
        text: "x\n0\n-- rows 1, pages 2\n",
    },
    // Bytes that are no UTF-8: alone, a first byte with none behind it, one that only goes on, a byte order mark.
    Case {
        script: b"SELECT \xff FROM t",
        statements: 1,
        refused: 1,
        text: "! BadByte at 7\n",
    },
    Case {
        script: b"SELECT x\xc3 FROM t",
        statements: 1,
        refused: 1,
        text: "! BadByte at 8\n",
    },
    Case {
        script: b"SELECT m FROM t LIMIT 0; \x80",
        statements: 2,
        refused: 1,
        text: "m\n-- rows 0, pages 0\n! BadByte at 25\n",
    },
    Case {
        script: b"\xef\xbb\xbfSELECT x FROM t",
        statements: 1,
        refused: 1,
        text: "! BadByte at 0\n",
    },
    Case {
        script: b"SELECT x FROM t -- \xff\xc3\x80\xed\xa0\x80\n WHERE x = 0",
        statements: 1,
        refused: 0,
        text: "x\n0\n-- rows 1, pages 2\n",
    },
    // Carriage returns alone: they part tokens, and end no comment.
    Case {
        script: b"\r",
        statements: 0,
        refused: 0,
        text: "",
    },
    Case {
        script: b"SELECT\rx\rFROM\rt\rWHERE\rx\r=\r0\r;\r",
        statements: 1,
        refused: 0,
        text: "x\n0\n-- rows 1, pages 2\n",
    },
    Case {
        script: b"SELECT x FROM t WHERE x = 0 -- all\r AND x = 1;\r SELECT",
        statements: 1,
        refused: 0,
        text: "x\n0\n-- rows 1, pages 2\n",
    },
    Case {
        script: b"SELECT x FROM t WHERE x = 0\r\n-- all\r\n;\r\nSELECT\r\n",
        statements: 2,
        refused: 1,
        text: "x\n0\n-- rows 1, pages 2\n! Syntax at 46\n",
    },
];

// Whether a script on the worked table, two rows on a page, is run to its end, with this summary and text.
fn is_run(alloc: Global, script: &[u8], summary: Summary, text: &[u8]) -> bool {
    let mut out = Over::new(Vec::new(alloc));
    let ended = try_text(alloc, DATA, 2, 2, b"t", 0, script, &mut out);
    ended == Ok(summary) && out.into_inner().as_slice() == text
}

#[test]
fn have_any_bytes(rt: HostRuntime) {
    for (i, case) in CASES.iter().enumerate() {
        let summary = Summary {
            statements: case.statements,
            refused: case.refused,
        };
        let is_so = is_run(rt.alloc(), case.script, summary, case.text.as_bytes());
        assert!(rt; is_so, "case {i}");
    }
}

// What a script of one byte writes.
fn text_of(byte: u8) -> &'static [u8] {
    if b" \t\n\r;".contains(&byte) {
        b""
    } else if byte.is_ascii_alphanumeric() || b"_,()*=<>-".contains(&byte) {
        b"! Syntax at 0\n"
    } else {
        b"! BadByte at 0\n"
    }
}

// Whether a script of this byte is run so: it is empty, or is one statement, which is refused.
fn is_told(alloc: Global, byte: u8) -> bool {
    let text = text_of(byte);
    let count = u64::from(!text.is_empty());
    let summary = Summary {
        statements: count,
        refused: count,
    };
    is_run(alloc, &[byte], summary, text)
}

#[test]
fn are_each_byte_alone(rt: HostRuntime) {
    for byte in 0..=255u8 {
        assert!(rt; is_told(rt.alloc(), byte), "byte {byte}");
    }
}

// Bytes so many times.
fn repeated(alloc: Global, bytes: &[u8], count: u32) -> Result<Vec<u8>, AllocError> {
    let mut all = Vec::new(alloc);
    for _ in 0..count {
        all.extend_from_slice(bytes)?;
    }
    Ok(all)
}

// Whether so many statements are each answered, if memory is there.
fn are_answered(alloc: Global, count: u32) -> Result<bool, AllocError> {
    let script = repeated(alloc, b"SELECT m FROM t LIMIT 0;", count)?;
    let text = repeated(alloc, b"m\n-- rows 0, pages 0\n", count)?;
    let summary = Summary {
        statements: u64::from(count),
        refused: 0,
    };
    Ok(is_run(alloc, script.as_slice(), summary, text.as_slice()))
}

#[test]
fn have_a_hundred_thousand_statements(rt: HostRuntime) {
    assert!(rt; are_answered(rt.alloc(), 100_000) == Ok(true));
}
