ghost use Rattle.std.specs.Prelude.{◌≡◌, ◌≤◌, ◌++◌, length, codes};
ghost use Rattle.ub_table_file.specs.Status.{Tells, status_code, summary_status, load_fault_status, load_fault_text, open_fault_status, open_fault_text, page_fault_word, store_fault_status, store_fault_text, tree_fault_status, tree_fault_text};

use crate::line::{Line, line, numbered_line, twice_numbered_line};
use ub_files::OpenFault;
use ub_load::LoadFault;
use ub_script::{Out, Summary, put_all};
use ub_store::StoreFault;
use ub_table::PageFault;
use ub_tree::TreeFault;

/// How a command of the program ends.
#[derive(Clone, Copy, PartialEq, Eq, Debug)]
pub enum Status {
    /// All was done.
    Done,
    /// A statement was refused, and there was no fault.
    Refused,
    /// The command line was refused.
    CommandLine,
    /// The data were refused.
    Data,
    /// A file or the output failed.
    Device,
    /// Memory was refused.
    Memory,
}

impl Status {
    /// The number that the program ends with, 0 to 5 in the order of the variants.
    pub fn code(self) -> u8
        ensures { result ≡ status_code self }
    {
        match self {
            Status::Done => 0,
            Status::Refused => 1,
            Status::CommandLine => 2,
            Status::Data => 3,
            Status::Device => 4,
            Status::Memory => 5,
        }
    }
}

/// How a script ends that was run to its end: by whether a statement was refused.
pub fn summary_status(summary: Summary) -> Status
    ensures { result ≡ summary_status summary }
{
    if summary.refused == 0 {
        Status::Done
    } else {
        Status::Refused
    }
}

/// How a run ends whose store refused: by the data, unless it failed or memory was refused.
pub fn store_fault_status(fault: StoreFault) -> Status
    ensures { result ≡ store_fault_status fault }
{
    match fault {
        StoreFault::Memory => Status::Memory,
        StoreFault::Device => Status::Device,
        StoreFault::NoPage | StoreFault::BadSize => Status::Data,
    }
}

/// How a command ends whose table file can't be opened to be changed, or can't be made: by the data where a journal stands beside it that
/// is damaged or another table's, else as its store refused.
pub fn open_fault_status(fault: OpenFault) -> Status
    ensures { result ≡ open_fault_status fault }
{
    match fault {
        OpenFault::Store(fault) => store_fault_status(fault),
        OpenFault::BadJournal => Status::Data,
    }
}

/// How a run ends whose tree refused: by the data, also where no number or no room is left for a row, unless its store failed or
/// memory was refused.
pub fn tree_fault_status(fault: TreeFault) -> Status
    ensures { result ≡ tree_fault_status fault }
{
    match fault {
        TreeFault::Memory => Status::Memory,
        TreeFault::Failed => Status::Device,
        TreeFault::Store(fault) => store_fault_status(fault),
        TreeFault::Full | TreeFault::Page { .. } => Status::Data,
    }
}

/// How a run ends whose table was refused: by the data, but for want of memory or a store that failed.
pub fn load_fault_status(fault: LoadFault) -> Status
    ensures { result ≡ load_fault_status fault }
{
    match fault {
        LoadFault::Memory => Status::Memory,
        LoadFault::Tree(fault) => tree_fault_status(fault),
        _ => Status::Data,
    }
}

// The line for what is wrong with a page, up to its number.
fn page_fault_front(fault: PageFault) -> &'static str
    ensures front { result.now ≡ codes "! " ++ page_fault_word fault ++ codes " page " }
    ensures short { length result.now ≤ 32 }
{
    match fault {
        PageFault::WrongKind => "! WrongKind page ",
        PageFault::OldFormat => "! OldFormat page ",
        PageFault::Unclean => "! Unclean page ",
        PageFault::BadCount => "! BadCount page ",
        PageFault::BadName => "! BadName page ",
        PageFault::BadRow => "! BadRow page ",
        PageFault::BadOrder => "! BadOrder page ",
        PageFault::OutOfRegion => "! OutOfRegion page ",
        PageFault::BadPadding => "! BadPadding page ",
    }
}

// The line for what a store refused.
fn store_fault_line(fault: StoreFault) -> Line
    ensures { result.bytes ≡ store_fault_text fault }
{
    match fault {
        StoreFault::NoPage => line("! NoPage\n"),
        StoreFault::BadSize => line("! BadSize\n"),
        StoreFault::Device => line("! Device\n"),
        StoreFault::Memory => line("! Memory\n"),
    }
}

// The line for a table file that can't be opened to be changed, or can't be made.
fn open_fault_line(fault: OpenFault) -> Line
    ensures { result.bytes ≡ open_fault_text fault }
{
    match fault {
        OpenFault::Store(fault) => store_fault_line(fault),
        OpenFault::BadJournal => line("! BadJournal\n"),
    }
}

// The line for what a tree refused.
fn tree_fault_line(fault: TreeFault) -> Line
    ensures { result.bytes ≡ tree_fault_text fault }
{
    match fault {
        TreeFault::Page { page, fault } => numbered_line(page_fault_front(fault), page),
        TreeFault::Full => line("! Full\n"),
        TreeFault::Store(fault) => store_fault_line(fault),
        TreeFault::Failed => line("! Device\n"),
        TreeFault::Memory => line("! Memory\n"),
    }
}

// The line for a table that was refused.
fn load_fault_line(fault: LoadFault) -> Line
    ensures { result.bytes ≡ load_fault_text fault }
{
    match fault {
        LoadFault::BadName(0) => line("! BadName table\n"),
        LoadFault::BadName(column) => numbered_line("! BadName column ", column),
        LoadFault::BadNumber { row, column } => {
            twice_numbered_line("! BadNumber row ", row, " column ", column)
        }
        LoadFault::OutOfRange { row, column } => {
            twice_numbered_line("! OutOfRange row ", row, " column ", column)
        }
        LoadFault::NoHeader => line("! NoHeader\n"),
        LoadFault::ColumnCount => line("! ColumnCount\n"),
        LoadFault::Csv => line("! Csv\n"),
        LoadFault::Tree(fault) => tree_fault_line(fault),
        LoadFault::Memory => line("! Memory\n"),
    }
}

/// Writes the bytes, and ends with the status, or with `Device` where a write fails.
pub fn tell<W: Out>(out: &mut W, bytes: &[u8], status: Status) -> Status
    ensures { Tells (W.facts out.old) (W.facts out.new) bytes.now status result }
{
    match put_all(out, bytes) {
        Ok(()) => status,
        Err(_) => Status::Device,
    }
}

/// Writes the line that says that memory was refused.
pub fn tell_memory<W: Out>(out: &mut W) -> Status
    ensures { Tells (W.facts out.old) (W.facts out.new) (codes "! Memory\n") Status.Memory result }
{
    tell(out, b"! Memory\n", Status::Memory)
}

/// Writes a line, and ends with the status, or with `Device` where the write fails.
pub fn tell_line<W: Out>(line: &Line, status: Status, out: &mut W) -> Status
    ensures { Tells (W.facts out.old) (W.facts out.new) line.now.bytes status result }
{
    tell(out, line.as_str().as_bytes(), status)
}

/// Writes the line for what a store refused.
pub fn tell_store_fault<W: Out>(fault: StoreFault, out: &mut W) -> Status
    ensures { Tells (W.facts out.old) (W.facts out.new)
        (store_fault_text fault) (store_fault_status fault) result }
{
    tell_line(&store_fault_line(fault), store_fault_status(fault), out)
}

/// Writes the line for a table file that can't be opened to be changed, or can't be made.
pub fn tell_open_fault<W: Out>(fault: OpenFault, out: &mut W) -> Status
    ensures { Tells (W.facts out.old) (W.facts out.new)
        (open_fault_text fault) (open_fault_status fault) result }
{
    tell_line(&open_fault_line(fault), open_fault_status(fault), out)
}

/// Writes the line for a table that was refused.
pub fn tell_load_fault<W: Out>(fault: LoadFault, out: &mut W) -> Status
    ensures { Tells (W.facts out.old) (W.facts out.new)
        (load_fault_text fault) (load_fault_status fault) result }
{
    tell_line(&load_fault_line(fault), load_fault_status(fault), out)
}

/// Writes the line for what a tree refused.
pub fn tell_tree_fault<W: Out>(fault: TreeFault, out: &mut W) -> Status
    ensures { Tells (W.facts out.old) (W.facts out.new)
        (tree_fault_text fault) (tree_fault_status fault) result }
{
    tell_line(&tree_fault_line(fault), tree_fault_status(fault), out)
}
