ghost use Rattle.std.specs.Prelude.{◌≡◌, ◌≤◌, ℕ, List, MatchOption, Some, map, option_map, string_bytes};
ghost use Rattle.clap.specs.Words.{first_of, found_of, rows_of, subcommand_rows_of};
ghost use Rattle.ub_words.specs.CommandLine.{AreNextWords, IsDataGiven, IsLoadGiven, IsNextGiven, IsNumberGiven, IsTryGiven};

use clap::ArgMatches;

/// The CSV file that a command line names, and how a table is made of it.
#[derive(Clone, Copy)]
pub struct DataWords<'a> {
    /// The path of the CSV file; `-` is standard input.
    pub path: &'a str,
    /// The table's name in the statements.
    pub name: &'a str,
    /// How many of the columns are dimensions, 1 to 4.
    pub dims: u32,
    /// How many rows a page holds at most, 2 to 64.
    pub page_rows: u32,
    /// Which of the dimensions are signed, bit i for dimension i: 0 to 15.
    pub signed: u32,
}

/// What a command line says that asks for a run of a script on the table of a CSV file.
#[derive(Clone, Copy)]
pub struct TryWords<'a> {
    pub source: DataWords<'a>,
    /// The path of the script; `-` is standard input, unless that is the CSV file.
    pub script: &'a str,
}

/// What a command line says that asks for a CSV file to be loaded into a table file.
#[derive(Clone, Copy)]
pub struct LoadWords<'a> {
    pub source: DataWords<'a>,
    /// The path of the table file.
    pub table: &'a str,
}

/// What a command line says that asks for a run of a script on a table file.
#[derive(Clone, Copy)]
pub struct RunWords<'a> {
    /// The path of the table file.
    pub table: &'a str,
    /// The path of the script; `-` is standard input.
    pub script: &'a str,
}

/// What a command line says that asks for answers of a table file, apart from what tells of them.
#[derive(Clone, Copy)]
pub struct QueryWords<'a> {
    /// The path of the table file.
    pub table: &'a str,
    /// The statements themselves.
    pub statements: &'a str,
}

/// What a command line says that asks for the rows of a CSV file to be put into a table file.
#[derive(Clone, Copy)]
pub struct AppendWords<'a> {
    /// The path of the table file.
    pub table: &'a str,
    /// The path of the CSV file; `-` is standard input.
    pub data: &'a str,
}

/// What a command line says that asks for a table file of an older version to be made anew.
#[derive(Clone, Copy)]
pub struct UpgradeWords<'a> {
    /// The path of the table file of an older version.
    pub old: &'a str,
    /// The path of the table file to make.
    pub new: &'a str,
}

/// A command whose words are a table file alone.
#[derive(Clone, Copy)]
pub enum TableCommand {
    /// What the table file's header tells.
    Describe,
    /// Whether the table file's pages are sound.
    Check,
}

/// What a command line says that asks for something of a table file alone.
#[derive(Clone, Copy)]
pub struct TableWords<'a> {
    /// What is asked for.
    pub command: TableCommand,
    /// The path of the table file.
    pub table: &'a str,
}

/// What a command line says that asks for the neighbours of an address in a box.
#[derive(Clone, Copy)]
pub struct NextWords<'a> {
    /// The box's low corner.
    pub low: &'a str,
    /// The box's high corner.
    pub high: &'a str,
    /// The address.
    pub address: &'a str,
}

// The text that was given for an argument, or that its default says.
pub(crate) fn text_given<'a>(matches: &ArgMatches<'a>, id: &str) -> Option<&'a str>
    ensures { option_map (λ text. text.now) result ≡ first_of id.now (rows_of (found_of matches.now)) }
{
    matches.get_str(id)
}

// The texts that were given for two arguments, where both were.
pub(crate) fn texts_given<'a>(
    matches: &ArgMatches<'a>,
    first: &str,
    second: &str,
) -> Option<(&'a str, &'a str)>
    ensures { MatchOption result
        ((one other : List ℕ) → ¬ ((first_of first.now (rows_of (found_of matches.now)) ≡ Some one)
        × (first_of second.now (rows_of (found_of matches.now)) ≡ Some other)))
        (λ texts. (first_of first.now (rows_of (found_of matches.now)) ≡ Some texts.0.now)
        × (first_of second.now (rows_of (found_of matches.now)) ≡ Some texts.1.now)) }
{
    text_given(matches, first).zip(text_given(matches, second))
}

// The number that was given for an option, or that its default says, within these bounds.
fn number_given(matches: &ArgMatches<'_>, id: &str, least: u32, most: u32) -> Option<u32>
    ensures { MatchOption result
        ((number : ℕ) → ¬ (IsNumberGiven (rows_of (found_of matches.now)) id.now least most number))
        (IsNumberGiven (rows_of (found_of matches.now)) id.now least most) }
{
    let Some(number) = matches.get_one::<u32>(id) else {
        return None;
    };
    if least <= number && number <= most {
        Some(number)
    } else {
        None
    }
}

// What was given for the file DATA, and for the options that go with it.
fn data_words<'a>(matches: &ArgMatches<'a>) -> Option<DataWords<'a>>
    ensures { MatchOption result
        ((path name : List ℕ) (dims page_rows signed : ℕ)
        → ¬ (IsDataGiven (rows_of (found_of matches.now)) path name dims page_rows signed))
        (λ words. IsDataGiven (rows_of (found_of matches.now))
        words.path.now words.name.now words.dims words.page_rows words.signed) }
{
    let texts = texts_given(matches, "DATA", "name");
    let dims = number_given(matches, "dims", 1, 4);
    let page_rows = number_given(matches, "page-rows", 2, 64);
    let signed = number_given(matches, "signed", 0, 15);
    match texts.zip(dims.zip(page_rows)).zip(signed) {
        Some((((path, name), (dims, page_rows)), signed)) => Some(DataWords {
            path,
            name,
            dims,
            page_rows,
            signed,
        }),
        None => None,
    }
}

// What was given for the command `try`.
pub(crate) fn try_words<'a>(matches: &ArgMatches<'a>) -> Option<TryWords<'a>>
    ensures { MatchOption result
        ((source script name : List ℕ) (dims page_rows signed : ℕ)
        → ¬ (IsTryGiven (rows_of (found_of matches.now)) source script name dims page_rows signed))
        (λ words. IsTryGiven (rows_of (found_of matches.now)) words.source.path.now words.script.now
        words.source.name.now words.source.dims words.source.page_rows words.source.signed) }
{
    match data_words(matches).zip(text_given(matches, "SCRIPT")) {
        Some((source, script)) => Some(TryWords { source, script }),
        None => None,
    }
}

// What was given for the command `load`.
pub(crate) fn load_words<'a>(matches: &ArgMatches<'a>) -> Option<LoadWords<'a>>
    ensures { MatchOption result
        ((source table name : List ℕ) (dims page_rows signed : ℕ)
        → ¬ (IsLoadGiven (rows_of (found_of matches.now)) source table name dims page_rows signed))
        (λ words. IsLoadGiven (rows_of (found_of matches.now)) words.source.path.now words.table.now
        words.source.name.now words.source.dims words.source.page_rows words.source.signed) }
{
    match data_words(matches).zip(text_given(matches, "TABLE")) {
        Some((source, table)) => Some(LoadWords { source, table }),
        None => None,
    }
}

// What was given for the command `next`.
pub(crate) fn next_words<'a>(matches: &ArgMatches<'a>) -> Option<NextWords<'a>>
    ensures { MatchOption result
        ((lo hi z : List ℕ) → ¬ (IsNextGiven (rows_of (found_of matches.now)) lo hi z))
        (λ words. IsNextGiven (rows_of (found_of matches.now))
        words.low.now words.high.now words.address.now) }
{
    match texts_given(matches, "LO", "HI").zip(text_given(matches, "Z")) {
        Some(((low, high), address)) => Some(NextWords { low, high, address }),
        None => None,
    }
}

// The three words after `next`, where there are no others.
pub(crate) fn three_after_next<'a>(words: &'a [String]) -> Option<NextWords<'a>>
    ensures { MatchOption result
        ((lo hi z : List ℕ) → ¬ (AreNextWords (map string_bytes words.now) lo hi z))
        (λ three. AreNextWords (map string_bytes words.now) three.low.now three.high.now three.address.now) }
{
    match words {
        [_, command, low, high, address] if command.as_str() == "next" => Some(NextWords {
            low: low.as_str(),
            high: high.as_str(),
            address: address.as_str(),
        }),
        _ => None,
    }
}

// The command that `clap` found, and what was given for it.
pub(crate) fn command_found<'m, 'a>(
    matches: &'m ArgMatches<'a>,
) -> Option<(&'a str, &'m ArgMatches<'a>)>
    ensures { option_map (λ p. (p.0.now, rows_of (found_of p.1.now))) result
        ≡ subcommand_rows_of matches.now }
{
    matches.subcommand()
}
