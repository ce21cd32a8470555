use arrayvec::ArrayString;
use std::{fmt, io};

/// What couldn't be done with a file.
#[derive(Clone, Copy)]
pub enum Deed {
    Read,
    Open,
    /// A table file couldn't be opened to be changed, or a journal beside it not be finished.
    Change,
    Make,
    /// A page of a table file that was open couldn't be read.
    Use,
    /// What a run did before a page couldn't be read is kept.
    Stop,
    /// Nothing that a run changed was kept.
    Keep,
    /// All that it changed stands in a journal, of this path, which wasn't finished.
    Finish,
    /// All that it changed stands in the table file, from beside which the journal wasn't taken away for good.
    Settle,
}

/// What couldn't be done with which file, and the system's reason: a line for people, which nothing promises.
#[derive(Clone, Copy)]
pub struct Missed {
    deed: Deed,
    path: ArrayString<256>,
    why: io::Error,
}

impl Missed {
    /// That this couldn't be done, with the path as it is shown: what is longer than 250 bytes is cut, and ends in two full stops.
    pub(crate) fn new(deed: Deed, path: &str, why: io::Error) -> Missed {
        Missed {
            deed,
            path: shown(path),
            why,
        }
    }
}

// A path, or its beginning.
fn shown(path: &str) -> ArrayString<256> {
    let mut text = ArrayString::new();
    for c in path.chars() {
        if text.len() > 250 {
            let _ = text.try_push_str("..");
            return text;
        }
        let _ = text.try_push(c);
    }
    text
}

impl Deed {
    // What stands before the path.
    fn before(self) -> &'static str {
        match self {
            Deed::Read => "can't read ",
            Deed::Open => "can't open ",
            Deed::Change => "can't change ",
            Deed::Make => "can't make ",
            Deed::Use => "can't use ",
            Deed::Keep => "nothing was kept in ",
            Deed::Stop | Deed::Finish | Deed::Settle => "kept in ",
        }
    }

    // What stands after it.
    fn after(self) -> &'static str {
        match self {
            Deed::Stop => ", up to a page that can't be read",
            Deed::Finish => ", to be finished by the next change",
            _ => "",
        }
    }
}

impl fmt::Display for Missed {
    fn fmt<W: fmt::Write>(&self, f: &mut fmt::Formatter<W>) -> fmt::Result {
        let (before, after) = (self.deed.before(), self.deed.after());
        write!(f, "{before}{}{after}: {}", self.path, self.why)
    }
}
