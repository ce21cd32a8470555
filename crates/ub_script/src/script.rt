ghost use Rattle.std.specs.Prelude.{◌≡◌, ◌≢◌, ◌<◌, true, false, length, All, IfOk, IfErr, slice_range};
ghost use Rattle.ub_lexer.specs.Tokens.{AreSpelled};
ghost use Rattle.ub_load.specs.LoadedTable.{axes_with};
ghost use Rattle.ub_parser.specs.Outcome.{IsGiven, command};
ghost use Rattle.ub_planning.specs.Plan.{plan_of};
ghost use Rattle.ub_query.specs.Posed.{IsPosed};
ghost use Rattle.ub_query.specs.Shape.{asked};
ghost use Rattle.ub_table.specs.Schema.{AreTableNumbers, IsMask};
ghost use Rattle.ub_script.specs.Basis.{IsRestOf};
ghost use Rattle.ub_script.specs.Calls.{Tries};
ghost use Rattle.ub_script.specs.Run.{IsEnded, IsRange, FirstAt, EndedAt, IsWhole, IsStopped, IsCutOff, Ran, IsRun};
ghost use Rattle.ub_script.specs.Loop.{OnEach, IsAnswerAt, IsCutAt, Stops};
ghost use Rattle.ub_script.specs.Script.{AreAsking, IsAsking};
ghost use Rattle.ub_script.specs.Text.{refused_text};
ghost use Rattle.ub_script.specs.inner.Calls.{AnswersAsked, AnswersCommand, AnswersTokens, RunsStatements};

use crate::asking::Script;
use crate::changing::{delete_rows, insert_row};
use crate::fault::RunFault;
use crate::output::{Out, put_all};
use crate::text::{answer_text, refused_text};
use std::alloc::Global;
use ub_exec::execute;
use ub_lexer::Token;
use ub_load::load;
use ub_parser::{Query, SqlFault, Statement, parse};
use ub_plan::{Plan, explain, plan};
use ub_store::{MemStore, PageStore};
use ub_tree::Tree;

/// How many statements a script has, and how many of them were refused.
#[derive(Clone, Copy, PartialEq, Eq, Debug)]
pub struct Summary {
    pub statements: u64,
    pub refused: u64,
}

/// Loads the table of a CSV text into a tree in memory and runs a script on it: writes the text of each statement, whole,
/// one after the other, and counts the statements.
///
/// `Load` where the text is no table, and then nothing is written. `Write` where the output fails. `Memory` where memory
/// is refused, and `Tree` with `Full` where an INSERT finds no number left, or with `BadSize` where the store has no room
/// for another page: then nothing is written of the statement that needed it. No other fault of a tree comes, since a store
/// in memory doesn't fail.
pub fn try_text<W: Out>(
    alloc: Global,
    text: &[u8],
    dims: u32,
    page_rows: u32,
    name: &[u8],
    signed: u32,
    script: &[u8],
    out: &mut W,
) -> Result<Summary, RunFault>
    requires numbers { AreTableNumbers dims page_rows }
    requires mask { IsMask dims signed }
    ensures { Tries text.now (axes_with dims signed) page_rows name.now script.now
        result (W.facts out.old) (W.facts out.new) }
{
    let store = MemStore::new(alloc);
    let mut tree = load(alloc, text, dims, page_rows, name, signed, store)?;
    run(alloc, &mut tree, script, out)
}

/// Runs a script on a tree: writes the text of each statement, whole, one after the other, and counts the statements. Each
/// statement runs on the table that those before it left: an INSERT puts in a row, a DELETE takes out those that it selects, and
/// for each query that is answered the regions that its plan visits are read anew. A script that only asks reads the tree and no
/// more.
///
/// Over any tree, also over one that isn't sound, each text is whole and in form, and where a query is answered each page that
/// was read for it was taken in. Over a sound tree the texts say what the statements mean on its table, and it is left as they
/// say.
///
/// `Tree` where the tree refused a statement: on a sound tree only where its store failed in this call, an INSERT finds no number
/// left or no room in the index (`Full`), or the store can't have another page (`BadSize`). `Memory` where memory is refused. Then
/// nothing is written of the statement that needed it, and the table is as the statements before it left it, but that a DELETE may
/// have taken out the first of its rows by number; of a tree that has failed nothing is said. `Write` where the output fails: then
/// that statement was done, a front of its text stands, and nothing is written after it. `Load` never.
pub fn run<S: PageStore, W: Out>(
    alloc: Global,
    tree: &mut Tree<S>,
    script: &[u8],
    out: &mut W,
) -> Result<Summary, RunFault>
    ensures { IsRun tree.old tree.new script.now result (W.facts out.old) (W.facts out.new) }
{
    Script::read(alloc, script)?.run(alloc, tree, out)
}

// Runs the statements at these ranges of the tokens of a script.
pub(crate) fn run_statements<S: PageStore, W: Out>(
    alloc: Global,
    tree: &mut Tree<S>,
    source: &[u8],
    tokens: &[Token],
    ranges: &[(usize, usize)],
    out: &mut W,
) -> Result<Summary, RunFault>
    requires spelled { AreSpelled source.now tokens.now }
    requires ranges { All (λ range. IsRange tokens.now range) ranges.now }
    ensures runs { RunsStatements
        (λ basis summary. IsWhole (FirstAt basis source.now tokens.now ranges.now) summary)
        (λ basis. IsCutOff (FirstAt basis source.now tokens.now ranges.now))
        (AreAsking tree.old.schema source.now tokens.now ranges.now)
        tree.old tree.new result (W.facts out.old) (W.facts out.new) }
    ensures begun { OnEach tree.old (λ basis. IfErr result (λ fault. fault ≢ RunFault.Write
        → Ran (IsStopped (EndedAt basis source.now tokens.now ranges.now fault)) (IsRestOf tree.new)
        false (W.facts out.old) (W.facts out.new) tree.old.trace.fetches tree.new.trace.fetches)) }
{
    let mut refused = 0u64;
    for range in ranges {
        if run_statement(alloc, tree, source, tokens, *range, out)? {
            refused += 1;
        }
    }
    Ok(Summary {
        statements: ranges.len() as u64,
        refused,
    })
}

// Writes the text of the statement at this range of the tokens, and says whether it was refused.
fn run_statement<S: PageStore, W: Out>(
    alloc: Global,
    tree: &mut Tree<S>,
    source: &[u8],
    tokens: &[Token],
    range: (usize, usize),
    out: &mut W,
) -> Result<bool, RunFault>
    requires spelled { AreSpelled source.now tokens.now }
    requires range { IsRange tokens.now range }
    ensures runs { RunsStatements
        (λ basis is_refused. IsAnswerAt basis source.now tokens.now range is_refused)
        (λ basis. IsCutAt basis source.now tokens.now range)
        (IsAsking tree.old.schema source.now (slice_range tokens.now range.0 range.1))
        tree.old tree.new result (W.facts out.old) (W.facts out.new) }
    ensures begun { IfErr result (λ fault. fault ≢ RunFault.Write
        → W.facts out.new ≡ W.facts out.old) }
    ensures stopped { OnEach tree.old (λ basis. IfErr result (λ fault. fault ≢ RunFault.Write
        → Stops (IsEnded basis source.now (slice_range tokens.now range.0 range.1) fault)
        tree.old tree.new)) }
{
    let (from, to) = range;
    let answer = answer_to(alloc, tree, source, &tokens[from..to])?;
    put_all(out, &answer.text)?;
    Ok(answer.is_refused)
}

// What a statement writes, and whether it is refused.
#[derive(Drop)]
pub(crate) struct Answer {
    pub(crate) text: Vec<u8>,
    pub(crate) is_refused: bool,
}

// Parses the statement of these tokens, does what it says, and makes its text.
fn answer_to<S: PageStore>(
    alloc: Global,
    tree: &mut Tree<S>,
    source: &[u8],
    tokens: &[Token],
) -> Result<Answer, RunFault>
    requires some { 0 < length tokens.now }
    requires spelled { AreSpelled source.now tokens.now }
    ensures { AnswersTokens source.now tokens.now tree.old tree.new result }
{
    match parse(alloc, source, tokens, tree.schema()) {
        Ok(statement) => answer_accepted(alloc, tree, &statement),
        Err(fault) => refusal(alloc, fault),
    }
}

// Does what an accepted statement says, and makes its text.
fn answer_accepted<S: PageStore>(
    alloc: Global,
    tree: &mut Tree<S>,
    statement: &Statement,
) -> Result<Answer, RunFault>
    requires { IsGiven tree.old.schema (command statement.now) }
    ensures { AnswersCommand (command statement.now) tree.old tree.new result }
{
    match statement {
        Statement::Select(query) => answer_asked(alloc, tree, false, query),
        Statement::Explain(query) => answer_asked(alloc, tree, true, query),
        Statement::Insert(values) => insert_row(alloc, tree, values.as_slice()),
        Statement::Delete(query) => delete_rows(alloc, tree, query),
    }
}

// Makes the text of a query that is accepted: it is answered, or explained, by its plan.
fn answer_asked<S: PageStore>(
    alloc: Global,
    tree: &mut Tree<S>,
    is_explained: bool,
    query: &Query,
) -> Result<Answer, RunFault>
    requires { IsPosed (length tree.old.schema.columns) (asked query.now) }
    ensures { AnswersAsked is_explained (asked query.now) tree.old tree.new result }
{
    let plan = plan(alloc, query, tree.schema())?;
    if is_explained {
        explain_query(alloc, tree, &plan)
    } else {
        answer_query(alloc, tree, query, &plan)
    }
}

// Makes the text of a query's answer by its plan on the rows of a tree, which are read anew.
fn answer_query<S: PageStore>(
    alloc: Global,
    tree: &mut Tree<S>,
    query: &Query,
    plan: &Plan,
) -> Result<Answer, RunFault>
    requires posed { IsPosed (length tree.old.schema.columns) (asked query.now) }
    requires planned { plan.now ≡ plan_of tree.old.schema (asked query.now) }
    ensures { AnswersAsked false (asked query.now) tree.old tree.new result }
{
    let answer = execute(alloc, tree, plan)?;
    Ok(Answer {
        text: answer_text(alloc, tree.schema(), query, &answer.rows, answer.fetched)?,
        is_refused: false,
    })
}

// Makes the text of how a query's plan reads a tree, of which no region is fetched.
fn explain_query<S: PageStore>(
    alloc: Global,
    tree: &mut Tree<S>,
    plan: &Plan,
) -> Result<Answer, RunFault>
    requires { plan.now ≡ plan_of tree.old.schema plan.now.asked }
    ensures { AnswersAsked true plan.now.asked tree.old tree.new result }
{
    Ok(Answer {
        text: explain(alloc, plan, tree)?,
        is_refused: false,
    })
}

// What a refused statement writes; want of memory is no refusal.
fn refusal(alloc: Global, fault: SqlFault) -> Result<Answer, RunFault>
    ensures answer { IfOk result (λ a. (a.text.items ≡ refused_text fault) × (a.is_refused ≡ true)
        × (fault ≢ SqlFault.Memory)) }
    ensures memory { IfErr result (λ fault. fault ≡ RunFault.Memory) }
{
    match fault {
        SqlFault::Memory => Err(RunFault::Memory),
        fault => Ok(Answer {
            text: refused_text(alloc, &fault)?,
            is_refused: true,
        }),
    }
}
