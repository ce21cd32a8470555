use crate::crash::{Left, left_by};

/// Where the files lie over which a command line runs.
#[derive(Clone, Copy)]
pub enum Place {
    Memory,
    /// In a folder of the system.
    Folder,
    /// In memory, where it has ended with its status, and what people at a terminal are told of that is asked.
    Terminal,
}

/// A command line, and how it is run.
#[derive(Clone, Copy)]
pub struct Asked<'a> {
    pub words: &'a str,
    /// Which call of its table file's place fails: none where it is 0.
    pub k: u64,
    /// What is left of it where it is stopped at that call.
    pub left: Option<Left>,
    /// After how many bytes a text fails that is read as it comes.
    pub readable: usize,
    /// For how many bytes its output has room.
    pub room: usize,
    /// For how many its second output has.
    pub noted_room: usize,
    /// The status that it must end with.
    pub status: u8,
    pub place: Place,
    /// Which files of the folder it must change, or make.
    pub changes: &'a str,
    /// A line that must be among those that it writes, where that isn't all that it must write.
    pub line: &'a str,
}

impl<'a> Asked<'a> {
    /// One of these words, where nothing fails.
    pub fn new(words: &'a str) -> Asked<'a> {
        Asked {
            words,
            k: 0,
            left: None,
            readable: usize::MAX,
            room: usize::MAX,
            noted_room: usize::MAX,
            status: 0,
            place: Place::Memory,
            changes: "",
            line: "",
        }
    }
}

/// What a line of a transcript begins, or says of the command line above it.
#[derive(Clone, Copy)]
pub enum Mark<'a> {
    /// Nothing: it is a comment.
    Comment,
    /// The text of the file of this name.
    File(&'a str),
    /// What a command line must write.
    Run(Asked<'a>),
    /// What a script on the table of `t.csv` must write.
    Script(&'a str),
    /// The status that the command line above ends with.
    Status(u8),
    /// A line that the command line above must write to its second output.
    Note(&'a str),
    /// A line that the command line above must write among others.
    Line(&'a str),
    /// The files of the folder that the command line above changes, or makes.
    Changes(&'a str),
    /// The file of this name is put into the folder.
    Put(&'a str),
    /// What is done to a table file before the next command line: the whole line.
    Damage(&'a str),
}

/// The mark that a line begins with, if there is one.
pub fn mark_of(line: &str) -> Option<Mark<'_>> {
    if line.starts_with('#') {
        return Some(Mark::Comment);
    }
    let (head, rest) = cut(line);
    match head {
        "==" => Some(Mark::File(rest)),
        "$" => Some(Mark::Run(Asked::new(rest))),
        ">" => Some(Mark::Script(rest)),
        "?" => Some(Mark::Status(rest.parse::<u8>().ok()?)),
        "2>" => Some(Mark::Note(rest)),
        ">>" => Some(Mark::Line(rest)),
        "^" => Some(Mark::Put(rest)),
        ":" => Some(Mark::Run(at(Place::Folder, rest))),
        "$!" => Some(Mark::Run(at(Place::Terminal, rest))),
        "*" => Some(Mark::Changes(rest)),
        "~" | "|" | "=" => Some(Mark::Damage(line)),
        _ => Some(Mark::Run(failing(head, rest)?)),
    }
}

// A command line where a call of a store fails, a text, or one of the outputs.
fn failing<'a>(head: &str, words: &'a str) -> Option<Asked<'a>> {
    if head == "@crash" {
        return stopped(words);
    }
    if head == "@text" {
        return cut_short(words);
    }
    let mut asked = Asked::new(words);
    if let Some(k) = head.strip_prefix('@') {
        asked.k = k.parse::<u64>().ok()?;
    } else if let Some(room) = head.strip_prefix("2/") {
        asked.noted_room = room.parse::<usize>().ok()?;
    } else {
        asked.room = head.strip_prefix('/')?.parse::<usize>().ok()?;
    }
    Some(asked)
}

// A command line that is stopped at a call, by the words for the call and for what is left, and its own.
fn stopped(words: &str) -> Option<Asked<'_>> {
    let (k, rest) = cut(words);
    let (left, words) = cut(rest);
    let mut asked = Asked::new(words);
    asked.k = k.parse::<u64>().ok()?;
    asked.left = Some(left_by(left)?);
    Some(asked)
}

// A command line whose text fails, by the word for the bytes that it gives, and its own.
fn cut_short(words: &str) -> Option<Asked<'_>> {
    let (bytes, words) = cut(words);
    let mut asked = Asked::new(words);
    asked.readable = bytes.parse::<usize>().ok()?;
    Some(asked)
}

// A command line at this place.
fn at(place: Place, words: &str) -> Asked<'_> {
    let mut asked = Asked::new(words);
    asked.place = place;
    asked
}

/// A line's first word, and what stands after the space behind it.
pub fn cut(line: &str) -> (&str, &str) {
    line.split_once(' ').unwrap_or((line, ""))
}
