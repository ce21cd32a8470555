ghost use Rattle.std.specs.Int.{int_max, int_min};
ghost use Rattle.std.specs.Prelude.{◌≡◌, IfOk, IsOkAnd, Ok, Some, box_value, codes, false, pos, true};
ghost use Rattle.clap.specs.Words.{App, Rule, new_app, signed_between, with_rule, with_subcommand};
ghost use Rattle.ub_words.specs.CommandLine.{IsArgFor, IsCommandFor, append_app, data_app, dims_rule, load_app, name_rule, next_app, option_rule, page_rows_rule, query_app, run_app, signed_rule, table_app, try_app, ubq_app, upgrade_app, word_rule};

use clap::{Arg, Command, value_parser};
use std::alloc::{AllocError, Global};

// What stands at the end of the program's help.
const PROGRAM_HELP: &str = "\
Example:
  ubq load sales.csv sales.ub --dims 2
  ubq query sales.ub 'SELECT COUNT(*) FROM t WHERE day BETWEEN 1 AND 7'
  ubq append sales.ub new.csv

All values are whole numbers. Statements are SELECT with WHERE, GROUP BY, ORDER BY and LIMIT, INSERT of one row, and
DELETE with WHERE; ubq run --help has their grammar. EXPLAIN in front of a SELECT shows how it would be answered, and
reads no page of rows. If something fails, the last line says what, as ! NoPage; the help of each command has its lines.

Status:
  0  all was done
  1  a statement was refused, and the others were run
  2  wrong arguments
  3  a CSV file was refused, a table file is none or is damaged, a journal is damaged or another table's, or TABLE has no
     room for another row
  4  a file or the output failed
  5  memory was refused";

const LOAD_HELP: &str = "\
Example:
  ubq load sales.csv sales.ub --dims 2
writes
  -- rows 1000, regions 24

DATA has a header, and whole numbers alone: first the dimensions, 0 to 4294967295, then up to 4 measures of 64 bits with
sign. It is read before TABLE is touched; where DATA is refused TABLE stays as it was. Where TABLE is a table already, it
holds that or the new one at each moment, also where the load is stopped; it waits for whoever uses TABLE.

A dimension that --signed names has the values -2147483648 to 2147483647. MASK is a sum: 1 for the first dimension, 2 for
the second, 4 for the third, 8 for the fourth. So of day, zone and temp
  ubq load days.csv days.ub --dims 3 --signed 6
has zone (2) and temp (4) signed. DATA is mostly refused as ! OutOfRange row 1 column 1 where a negative number stands in
a dimension that isn't signed: name that one by --signed.

A load that fails says why in its last line:
  ! NoHeader                    DATA has no record
  ! ColumnCount                 DATA has fewer columns than D, or over D + 4
  ! BadName table               T is no name: 1 to 32 letters, digits or _, with no digit first, and no keyword
  ! BadName column K            the name of this column is none either, or an earlier column has it
  ! Csv                         a record has more fields than the header, or fewer: mostly for a comma in a number
  ! BadNumber row R column K    this is no whole number: mostly a text, a date, a decimal point, or nothing
  ! OutOfRange row R column K   this is one that the column can't hold: mostly below 0 where that isn't signed
  ! Full                        DATA has over 16777215 rows
  ! SameFile                    DATA and TABLE are one path
  ! BadMask                     MASK names a dimension that isn't there: 4 or more with --dims 2
  ! BadJournal                  the file TABLE-journal is damaged, another table's, or beside no table: move it away
  ! Device                      a file isn't there or can't be used, as standard error says, or the disk is full
  ! Memory                      DATA and the table don't fit into memory
Row R is counted behind the header, and column K in DATA, both from 1.

Status:
  0  TABLE holds the rows of DATA
  2  wrong arguments, DATA and TABLE are one path, or MASK names a dimension that isn't there, as ! BadMask
  3  DATA was refused, as ! BadNumber row 2 column 1; or beside TABLE stands a journal that isn't its own, as ! BadJournal
  4  a file or the output failed
  5  memory was refused";

// The usage line of `run`, which stands in its help and where one of its words is missing.
const RUN_USAGE: &str = "\
ubq run <TABLE> <SCRIPT>
       ubq run <TABLE> -         (the script is read from standard input)";

const RUN_HELP: &str = "\
Example:
  ubq run sales.ub script.sql
  echo 'SELECT * FROM t LIMIT 5;' | ubq run sales.ub -

A query writes a title line, its rows, and -- rows R, pages P. INSERT puts in a row of one value for each column, and
writes its number, as -- inserted 401. DELETE takes out the rows that its condition selects, or all rows, and writes how
many, as -- deleted 3. A statement that is refused changes nothing and writes why, as ! Syntax at 7: a name, and where
in the script, in bytes from 0. Each statement runs on the table that those before it left.

What was put in or taken out is put into TABLE when the run ends, all of it or nothing: a run that is stopped at any
moment leaves TABLE as it was, or as it is to be. Status 0, 1, 3 and 5 say that what was done is kept. After 4 TABLE holds
what it held, or all that was done before the fault. Standard error says which, and where it says nothing the output
failed, and what was done is kept: look before running the script again.
A script that only asks leaves TABLE as it was, byte for byte. A run with INSERT or DELETE waits for whoever uses TABLE.

A fault ends the run, and the last line says which:
  ! OldFormat page 0   an older ubq made TABLE: ubq upgrade TABLE NEW makes it anew, with all its rows
  ! Unclean page 0     a ubq of before journals was stopped while it changed TABLE, or works on it now; or TABLE was
                       copied while it was changed, without the file TABLE-journal beside it: put that there
  ! WrongKind page 0   TABLE is no table file, or one of a later ubq
  ! NAME page N        this page is damaged: BadCount, BadName, BadRow, BadOrder, OutOfRegion, BadPadding or WrongKind
  ! NoPage             TABLE has no bytes, or not a page that it names
  ! BadSize            TABLE is no whole number of pages, mostly a part of a copy; or has no room for another page
  ! BadJournal         the file TABLE-journal is damaged, or another table's: move it away
  ! Full               an INSERT finds no row number left of 16777215, or no room in the index
  ! Device             a file isn't there or can't be used, as standard error says, or the disk is full
  ! Memory             memory was refused: mostly for the rows of one answer

Statements, each ended by a semicolon:
  statement   = select | insert | delete
  select      = [EXPLAIN] SELECT items FROM name [WHERE condition] [GROUP BY name {, name}]
                [ORDER BY key {, key}] [LIMIT number]
  insert      = INSERT INTO name VALUES ( literal {, literal} )
  delete      = DELETE FROM name [WHERE condition]
  items       = * | item {, item}
  item        = name | COUNT ( * ) | SUM ( name ) | MIN ( name ) | MAX ( name )
  key         = item [ASC | DESC]
  condition   = conjunction {OR conjunction}
  conjunction = operand {AND operand}
  operand     = NOT operand | ( condition ) | name operator literal
              | name BETWEEN literal AND literal
  operator    = = | <> | != | < | <= | > | >=
  literal     = [-] number
EXPLAIN shows how a query would be answered, and reads no page of rows.

A statement is refused for the first of these that holds:
  BadByte         a byte that no statement has
  Syntax          the statement isn't one of the grammar
  NumberTooLarge  a number over 18446744073709551615
  TooDeep         over 64 parentheses and NOTs, one in the other
  TooMany         over 64 comparisons, or over 8 items, columns after GROUP BY or keys
  UnknownTable    the name after FROM or INTO isn't the table's
  UnknownColumn   another name is no column
  NotGrouped      with groups, an item is * or a column that isn't after GROUP BY
  NotSelected     with groups, a key isn't among the items; without, a key is an aggregate
  ValueCount      an INSERT doesn't have one value for each column
  ValueRange      a value of an INSERT is one that its column can't hold

Status:
  0  all statements were answered
  1  a statement was refused, and the others were run
  2  wrong arguments
  3  TABLE isn't a table file, is damaged, or is refused as OldFormat, Unclean or BadJournal; or it has no room for another
     row, as ! Full
  4  a file or the output failed
  5  memory was refused";

const QUERY_HELP: &str = "\
Example:
  ubq query sales.ub 'SELECT shop, SUM(price) FROM t GROUP BY shop'
  ubq query sales.ub 'SELECT * FROM t' >sales.csv

STATEMENTS are what a script of ubq run can hold, and do to TABLE what they do there; ubq run --help has their grammar,
and the lines of faults. Of what ubq run would write, each line that begins with -- or ! and then a space goes to
standard error, and all others go to standard output. So a file or a pipe gets titles and rows alone: the second example
makes a CSV file that ubq load takes.

The statements run first: nothing is written before TABLE is closed and its lock let go. So what they answer, which is
held in memory until then, can go into TABLE itself:
  ubq query sales.ub 'SELECT * FROM t WHERE day = 7' | ubq append sales.ub -

STATEMENTS that begin with --, as a comment does, come after the word --:
  ubq query sales.ub -- '-- all shops
  SELECT * FROM t'

Status:
  0  all statements were answered
  1  a statement was refused, and the others were run
  2  wrong arguments
  3  TABLE isn't a table file, is damaged, or is refused as OldFormat, Unclean or BadJournal; or it has no room for
     another row, as ! Full
  4  a file or the output failed
  5  memory was refused: look whether what was done is kept";

const APPEND_HELP: &str = "\
Example:
  ubq append sales.ub new.csv
writes
  -- appended 12, rows 1012

Each record of DATA becomes a row of TABLE behind those that are there, in the order of DATA. The header of DATA names
each of TABLE's columns once, in any order: each value goes into the column of its name. DATA is looked at whole before
the first change, and all of its rows are put in, or none: an append that is stopped at any moment leaves TABLE as it
was, or with all of them.

One that fails says why in its last line:
  ! NoHeader                    DATA has no record
  ! BadName column K            no column of TABLE has this name, in this case, or an earlier column of DATA has it
  ! ColumnCount                 a column of TABLE isn't among those of DATA
  ! Csv                         a record has more fields than the header, or fewer: mostly for a comma in a number
  ! BadNumber row R column K    this is no whole number: mostly a text, a date, a decimal point, or nothing
  ! OutOfRange row R column K   this is one that the column can't hold: mostly below 0 where that isn't signed
  ! Full                        not so many row numbers are left of 16777215, or there is no room in the index
  ! SameFile                    DATA and TABLE are one path
Row R is counted behind the header, and column K in DATA, both from 1. TABLE is refused as ubq run --help says: as
OldFormat, Unclean, WrongKind or another name with its page, NoPage, BadSize, BadJournal, Device or Memory. After
! Device standard error says whether the rows are in: look before running it again.

Status:
  0  TABLE has all rows of DATA
  2  wrong arguments, or DATA and TABLE are one path, as ! SameFile
  3  DATA was refused, as ! BadNumber row 2 column 1; or TABLE was, or it has no room for all rows, as ! Full
  4  a file failed, as ! Device; or the output did, which no line says, and then all rows are in, unless the line was to
     be that of a refusal
  5  memory was refused";

const TRY_HELP: &str = "\
Example:
  ubq try sales.csv script.sql --dims 2

No file is written: INSERT and DELETE change the table in memory alone. Each statement writes what it does with ubq run,
and so does EXPLAIN; ubq run --help has the grammar of statements, ubq load --help what DATA may hold, and which MASK
makes which dimensions signed.

Status:
  0  all statements were answered
  1  a statement was refused, and the others were run
  2  wrong arguments, DATA and SCRIPT are both standard input, or MASK names a dimension that isn't there, as ! BadMask
  3  DATA was refused, as ! BadNumber row 2 column 1; or the table has no room for another row, as ! Full
  4  a file or the output failed
  5  memory was refused";

const UPGRADE_HELP: &str = "\
Example:
  ubq upgrade old.ub new.ub
writes
  -- rows 1000, regions 24

OLD is a table file that an older ubq made, which ubq run refuses as ! OldFormat page 0. NEW gets its rows under their
numbers, and goes on with the next one; none of its dimensions is signed. OLD is only read. It is read before NEW is
touched; where OLD is refused NEW stays as it was. Where NEW is a table already, it holds that or the new one at each
moment, also where the upgrade is stopped. A table file of this version is refused, as ! WrongKind page 0.

An upgrade that fails says why in its last line:
  ! WrongKind page 0   OLD is no table file, or one of this version, which needs no upgrade, or of a later one
  ! Unclean page 0     an older ubq was stopped while it changed OLD, or works on it now
  ! NAME page N        this page is damaged: BadCount, BadName, BadRow, BadOrder, OutOfRegion, BadPadding or WrongKind
  ! NoPage             OLD has no bytes, or not a page that it names
  ! BadSize            OLD is no whole number of pages, mostly a part of a copy; or NEW would have too many
  ! SameFile           OLD and NEW are one path
  ! BadJournal         the file NEW-journal is damaged, another table's, or beside no table: move it away
  ! Device             a file isn't there or can't be used, as standard error says, or the disk is full
  ! Memory             the table doesn't fit into memory

Status:
  0  NEW holds the table of OLD
  2  wrong arguments, or OLD and NEW are one path, as ! SameFile
  3  OLD isn't a table file of an older version, or is damaged, as ! BadCount page 0; or beside NEW stands a journal that
     isn't its own, as ! BadJournal
  4  a file or the output failed
  5  memory was refused";

const DESCRIBE_HELP: &str = "\
Example:
  ubq describe sales.ub
writes
  table t
  dimension day
  dimension shop
  measure price
  rows 1000
  next 1001
  regions 24
  page-rows 64
  levels 1
  format 3
  load-with --dims 2 --signed 0 --page-rows 64 --name t

A signed dimension has signed after its name. The counts are those that the header of TABLE tells: rows, the number that
the next row gets, regions, the most rows of a page, the levels of the index, and the version of the table file. Of a
table file of an older version the header alone is read; one of format 1 has directory-pages in place of levels. The last
line has the options with which ubq load makes the same table of a CSV file of its rows. TABLE is only read.

Status:
  0  TABLE was described
  2  wrong arguments
  3  TABLE isn't a table file, is damaged, or is marked as changed, as ! Unclean page 0
  4  a file or the output failed
  5  memory was refused";

const CHECK_HELP: &str = "\
Example:
  ubq check sales.ub
writes
  -- rows 1000, regions 24

That line says that TABLE is sound: it was read from the root of its index on, each page can be read and stands where its
entry says, each row stands in its region, no two rows have one number, each number is below the next one, and there are
as many rows and regions as the header tells. Pages that the index doesn't lead to aren't looked at. Otherwise the first
fault is told, as ! BadRow page 7. TABLE is only read.

Status:
  0  TABLE is sound
  2  wrong arguments
  3  TABLE isn't a table file, is damaged, or is refused as OldFormat or Unclean, as ubq run --help says
  4  a file or the output failed
  5  memory was refused";

const NEXT_HELP: &str = "\
Example:
  ubq next 2,2 6,3 19
writes
  next 36
  prev 15

The first is the least address of the box from Z on, the second the greatest one up to Z; none says that there is none.
LO and HI are of coordinates, 0 to 4294967295: a value v of a signed dimension is the coordinate v + 2147483648.

Status:
  0  both were found, or none is there
  2  wrong arguments, or a word that can't be, as ! BadPoint
  4  the output failed
  5  memory was refused";

// A command in the making, unless memory was refused. It stands in a box: a function costs the prover little where what it
// owns is small.
type Making<'a> = Result<Box<Command<'a>>, AllocError>;

// Puts what was made into a box.
fn boxed<T: Drop>(alloc: Global, made: T) -> Result<Box<T>, AllocError>
    ensures { IfOk result (λ boxed. box_value boxed ≡ made) }
{
    Ok(Box::new(alloc, made)?)
}

// Adds something to what is in the making.
fn added<T: Drop, U: Drop, F: FnOnce(T, U) -> Result<T, AllocError>>(
    alloc: Global,
    made: Result<Box<T>, AllocError>,
    other: U,
    add: F,
) -> Result<Box<T>, AllocError>
    requires { F.IsAlwaysCallable add }
    ensures { IfOk result (λ after. IsOkAnd made (λ before.
        F.post add (box_value before) other (Ok (box_value after)))) }
{
    let made = add(Box::into_inner(made?), other)?;
    boxed(alloc, made)
}

// Adds an argument to a command.
fn with_arg<'a>(alloc: Global, command: Making<'a>, arg: Arg<'a>) -> Making<'a>
    ensures { (app : App) (rule : Rule)
        → IfOk command.entry (λ made. IsCommandFor app (box_value made)) → IsArgFor rule arg.entry
        → IfOk result (λ made. IsCommandFor (with_rule app rule) (box_value made)) }
{
    added(alloc, command, arg, Command::arg)
}

// Adds a command below another one.
fn with_command<'a>(alloc: Global, command: Making<'a>, below: Making<'a>) -> Making<'a>
    ensures { (app under : App) → IfOk command.entry (λ made. IsCommandFor app (box_value made))
        → IfOk below.entry (λ made. IsCommandFor under (box_value made))
        → IfOk result (λ made. IsCommandFor (with_subcommand app under.top) (box_value made)) }
{
    added(alloc, command, Box::into_inner(below?), Command::subcommand)
}

// A command of this name, with what the program's help says of it, and what stands at the end of its own.
fn named<'a>(alloc: Global, name: &'a str, about: &'a str, help: &'a str) -> Command<'a>
    ensures { IsCommandFor (new_app name.entry.now) result }
{
    Command::new(alloc, name).about(about).after_help(help)
}

// Such a command, to which words are to be added.
fn new_command<'a>(alloc: Global, name: &'a str, about: &'a str, help: &'a str) -> Making<'a>
    ensures { IfOk result (λ made. IsCommandFor (new_app name.entry.now) (box_value made)) }
{
    boxed(alloc, named(alloc, name, about, help))
}

// Such a command, whose help has another usage line.
fn with_usage<'a>(
    alloc: Global,
    name: &'a str,
    about: &'a str,
    help: &'a str,
    usage: &'a str,
) -> Making<'a>
    ensures { IfOk result (λ made. IsCommandFor (new_app name.entry.now) (box_value made)) }
{
    boxed(alloc, named(alloc, name, about, help).override_usage(usage))
}

// A word that is to be given at its place.
fn word_arg<'a>(alloc: Global, id: &'a str, help: &'a str) -> Arg<'a>
    ensures { IsArgFor (word_rule id.entry.now) result }
{
    Arg::new(alloc, id).required(true).help(help)
}

// Adds such a word to a command.
fn with_word<'a>(alloc: Global, command: Making<'a>, id: &'a str, help: &'a str) -> Making<'a>
    ensures { (app : App) → IfOk command.entry (λ made. IsCommandFor app (box_value made))
        → IfOk result (λ made.
        IsCommandFor (with_rule app (word_rule id.entry.now)) (box_value made)) }
{
    with_arg(alloc, command, word_arg(alloc, id, help))
}

// An option with a value.
fn option_arg<'a>(alloc: Global, id: &'a str, value: &'a str, help: &'a str) -> Arg<'a>
    ensures { IsArgFor (option_rule id.entry.now) result }
{
    Arg::new(alloc, id).long(id).value_name(value).help(help)
}

// An option whose value is a number of 32 bits, from `least` to `most`.
fn number_arg<'a>(
    alloc: Global,
    id: &'a str,
    value: &'a str,
    help: &'a str,
    least: i64,
    most: i64,
) -> Arg<'a>
    ensures { IsArgFor (record (option_rule id.entry.now) {
      parser = Some
          (signed_between (int_max (pos 0) least) (int_min (pos 4294967295) most));
    }) result }
{
    option_arg(alloc, id, value, help).value_parser(value_parser!(u32).range(least..=most))
}

// Adds the option that says how many columns are dimensions.
fn with_dims<'a>(alloc: Global, command: Making<'a>) -> Making<'a>
    ensures { (app : App) → IfOk command.entry (λ made. IsCommandFor app (box_value made))
        → IfOk result (λ made. IsCommandFor (with_rule app dims_rule) (box_value made)) }
{
    let help =
        "How many of the first columns are dimensions, 1 to 4: those that the table is sorted by";
    let arg = number_arg(alloc, "dims", "D", help, 1, 4).required(true);
    with_arg(alloc, command, arg)
}

// Adds the option that says which dimensions are signed.
fn with_signed<'a>(alloc: Global, command: Making<'a>) -> Making<'a>
    ensures { (app : App) → IfOk command.entry (λ made. IsCommandFor app (box_value made))
        → IfOk result (λ made. IsCommandFor (with_rule app signed_rule) (box_value made)) }
{
    let help = "\
Which dimensions are signed: 1 for the first, 2 for the second, 4, 8, added up; their values are -2147483648 to 2147483647";
    let arg = number_arg(alloc, "signed", "MASK", help, 0, 15).default_value("0");
    with_arg(alloc, command, arg)
}

// Adds the option that says how many rows a page holds.
fn with_page_rows<'a>(alloc: Global, command: Making<'a>) -> Making<'a>
    ensures { (app : App) → IfOk command.entry (λ made. IsCommandFor app (box_value made))
        → IfOk result (λ made. IsCommandFor (with_rule app page_rows_rule) (box_value made)) }
{
    let help = "How many rows a page holds at most, 2 to 64";
    let arg = number_arg(alloc, "page-rows", "C", help, 2, 64).default_value("64");
    with_arg(alloc, command, arg)
}

// Adds the option that says which name the table has.
fn with_name<'a>(alloc: Global, command: Making<'a>) -> Making<'a>
    ensures { (app : App) → IfOk command.entry (λ made. IsCommandFor app (box_value made))
        → IfOk result (λ made. IsCommandFor (with_rule app name_rule) (box_value made)) }
{
    let help = "The name of the table in the statements";
    let arg = option_arg(alloc, "name", "T", help).default_value("t");
    with_arg(alloc, command, arg)
}

// Adds the path of a CSV file, another word beside it, and how a table is made of the file.
fn with_data<'a>(alloc: Global, command: Making<'a>, id: &'a str, help: &'a str) -> Making<'a>
    ensures { (app : App) → IfOk command.entry (λ made. IsCommandFor app (box_value made))
        → IfOk result (λ made.
        IsCommandFor (data_app app (word_rule id.entry.now)) (box_value made)) }
{
    let data =
        "A CSV file with a header, the dimensions first and then the measures; - is standard input";
    let command = with_word(alloc, command, "DATA", data);
    let command = with_word(alloc, command, id, help);
    let command = with_dims(alloc, command);
    let command = with_signed(alloc, command);
    let command = with_page_rows(alloc, command);
    with_name(alloc, command)
}

// What the help of `run` and `try` says of the file of a script.
const SCRIPT: &str = "A file of statements, each ended by a semicolon; - is standard input";

// The command `load` as `clap` reads it.
fn load_command<'a>(alloc: Global) -> Making<'a>
    ensures { IfOk result (λ made. IsCommandFor load_app (box_value made)) }
{
    let table = "The table file to make; what it held is lost";
    let about = "Load a CSV file into a table file";
    let command = new_command(alloc, "load", about, LOAD_HELP);
    with_data(alloc, command, "TABLE", table)
}

// The command `run` as `clap` reads it.
fn run_command<'a>(alloc: Global) -> Making<'a>
    ensures { IfOk result (λ made. IsCommandFor run_app (box_value made)) }
{
    let table = "A table file that `load` made; INSERT and DELETE change it";
    let about = "Run a script of statements on a table file";
    let command = with_usage(alloc, "run", about, RUN_HELP, RUN_USAGE);
    let command = with_word(alloc, command, "TABLE", table);
    with_word(alloc, command, "SCRIPT", SCRIPT)
}

// The command `query` as `clap` reads it.
fn query_command<'a>(alloc: Global) -> Making<'a>
    ensures { IfOk result (λ made. IsCommandFor query_app (box_value made)) }
{
    let table = "A table file that `load` made; INSERT and DELETE change it";
    let statements = "The statements themselves, parted by semicolons";
    let about = "Write the answers of statements on a table file, and nothing else";
    let command = new_command(alloc, "query", about, QUERY_HELP);
    let command = with_word(alloc, command, "TABLE", table);
    with_word(alloc, command, "STATEMENTS", statements)
}

// The command `append` as `clap` reads it.
fn append_command<'a>(alloc: Global) -> Making<'a>
    ensures { IfOk result (λ made. IsCommandFor append_app (box_value made)) }
{
    let table = "A table file that `load` made; it gets the rows";
    let data = "A CSV file whose header names each column of TABLE; - is standard input";
    let about = "Put the rows of a CSV file into a table file";
    let command = new_command(alloc, "append", about, APPEND_HELP);
    let command = with_word(alloc, command, "TABLE", table);
    with_word(alloc, command, "DATA", data)
}

// The command `try` as `clap` reads it.
fn try_command<'a>(alloc: Global) -> Making<'a>
    ensures { IfOk result (λ made. IsCommandFor try_app (box_value made)) }
{
    let about = "Run a script of statements on a CSV file, in memory";
    let command = new_command(alloc, "try", about, TRY_HELP);
    with_data(alloc, command, "SCRIPT", SCRIPT)
}

// The command `upgrade` as `clap` reads it.
fn upgrade_command<'a>(alloc: Global) -> Making<'a>
    ensures { IfOk result (λ made. IsCommandFor upgrade_app (box_value made)) }
{
    let old = "A table file that an older ubq made; it is left as it was";
    let made = "The table file to make; what it held is lost";
    let about = "Make a table file anew that an older ubq made";
    let command = new_command(alloc, "upgrade", about, UPGRADE_HELP);
    let command = with_word(alloc, command, "OLD", old);
    with_word(alloc, command, "NEW", made)
}

// A command whose words are a table file alone, as `clap` reads it.
fn table_command<'a>(
    alloc: Global,
    name: &'a str,
    about: &'a str,
    table: &'a str,
    help: &'a str,
) -> Making<'a>
    ensures { IfOk result (λ made. IsCommandFor (table_app name.entry.now) (box_value made)) }
{
    let command = new_command(alloc, name, about, help);
    with_word(alloc, command, "TABLE", table)
}

// The command `describe` as `clap` reads it.
fn describe_command<'a>(alloc: Global) -> Making<'a>
    ensures { IfOk result (λ made. IsCommandFor (table_app (codes "describe")) (box_value made)) }
{
    let about = "Say what a table file holds, as its header tells it";
    let table = "A table file, also one that an older ubq made; it is only read";
    table_command(alloc, "describe", about, table, DESCRIBE_HELP)
}

// The command `check` as `clap` reads it.
fn check_command<'a>(alloc: Global) -> Making<'a>
    ensures { IfOk result (λ made. IsCommandFor (table_app (codes "check")) (box_value made)) }
{
    let about = "Check each page of a table file";
    let table = "The table file to check; it is only read";
    table_command(alloc, "check", about, table, CHECK_HELP)
}

// The command `next` as `clap` reads it.
fn next_command<'a>(alloc: Global) -> Making<'a>
    ensures { IfOk result (λ made. IsCommandFor next_app (box_value made)) }
{
    let low = "The least coordinate in each dimension, joined by commas, as in 2,2";
    let high = "The greatest coordinate in each dimension, joined by commas, as in 6,3";
    let address = "The Z-address from which to look, as in 19";
    let about = "Find the addresses of a box that are nearest to a Z-address, on either side";
    let command = new_command(alloc, "next", about, NEXT_HELP);
    let command = with_word(alloc, command, "LO", low);
    let command = with_word(alloc, command, "HI", high);
    with_word(alloc, command, "Z", address)
}

// The program's own name and help, and no commands as yet: it has a version, and wants a command.
fn bare_program<'a>(
    alloc: Global,
    name: &'a str,
    about: &'a str,
    help: &'a str,
    version: &'a str,
) -> Making<'a>
    ensures { IfOk result (λ made. IsCommandFor (record (new_app name.entry.now) {
      top = record (new_app name.entry.now).top { has_version = true; subcommand_required = true };
    }) (box_value made)) }
{
    let command = named(alloc, name, about, help).version(version);
    boxed(alloc, command.subcommand_required(true))
}

// The whole command line.
pub(crate) fn program<'a>(alloc: Global) -> Making<'a>
    ensures { IfOk result (λ made. IsCommandFor ubq_app (box_value made)) }
{
    let about = "Answer SQL queries over a table of whole numbers, kept as a UB-tree in one file";
    let version = "0.1.0 (table format 3)";
    let command = bare_program(alloc, "ubq", about, PROGRAM_HELP, version);
    let command = with_command(alloc, command, load_command(alloc));
    let command = with_command(alloc, command, run_command(alloc));
    let command = with_command(alloc, command, query_command(alloc));
    let command = with_command(alloc, command, append_command(alloc));
    let command = with_command(alloc, command, try_command(alloc));
    let command = with_command(alloc, command, upgrade_command(alloc));
    let command = with_command(alloc, command, describe_command(alloc));
    let command = with_command(alloc, command, check_command(alloc));
    with_command(alloc, command, next_command(alloc))
}
