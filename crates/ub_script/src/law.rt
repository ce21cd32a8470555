ghost use Rattle.ub_script.specs.Laws.{QueriesFetchOneNumberOfPages, OutcomesHaveOneReply, StatementsHaveOneReplyEach, ScriptsHaveOneEnd, ScriptsHaveOneSummary, CutTextsAreAFront, StoppedTextsAreAFront, StoppedTextsAreWhole, UnchangedTablesStay, FullTablesStay, RepliesOnATableAreThose, AnswersAreTheirLines, ExportsAreLoaded};

// Each function here does nothing, and its clause is a law of the definitions in specs/. So the law is proved, and is read
// beside the code.

/// For a query one number of pages is fetched.
pub fn queries_fetch_one_number_of_pages()
    ensures { QueriesFetchOneNumberOfPages }
{}

/// To a statement there is one reply: what it is told says every byte of its text, how many pages are fetched, and what it
/// makes of the table.
pub fn outcomes_have_one_reply()
    ensures { OutcomesHaveOneReply }
{}

/// To the statements of a script there is one reply each.
pub fn statements_have_one_reply_each()
    ensures { StatementsHaveOneReplyEach }
{}

/// A script that is run to its end writes one text, fetches one number of pages, has one summary, and leaves the table in one
/// way.
pub fn scripts_have_one_end()
    ensures { ScriptsHaveOneEnd }
{}

/// How many statements a script has, and how many of them are refused, depends on its bytes and on the schema alone: over two
/// trees of one schema, sound or not, it is the same where the script is run to its end.
pub fn scripts_have_one_summary()
    ensures { ScriptsHaveOneSummary }
{}

/// What a script writes up to a failed write is the first part of the text that it writes where it is run to its end, and not
/// all of that.
pub fn cut_texts_are_a_front()
    ensures { CutTextsAreAFront }
{}

/// What a script writes up to a statement that another fault ends is the first part of that text.
pub fn stopped_texts_are_a_front()
    ensures { StoppedTextsAreAFront }
{}

/// What stands then are the whole texts of the first statements.
pub fn stopped_texts_are_whole()
    ensures { StoppedTextsAreWhole }
{}

/// What is said of the replies of a run over a sound tree, on the basis of its table, is what is said of replies on that table alone,
/// where there is no tree.
pub fn replies_on_a_table_are_those()
    ensures { RepliesOnATableAreThose }
{}

/// Statements that put in no row and take out none leave a table as it was, and any tree but for its trace.
pub fn unchanged_tables_stay()
    ensures { UnchangedTablesStay }
{}

/// Nor does an INSERT change a tree that finds no number left, or no room in the index.
pub fn full_tables_stay()
    ensures { FullTablesStay }
{}

/// Of the text of an answer the line of counts alone tells of it: without that line it is the title
/// and the rows.
pub fn answers_are_their_lines()
    ensures { AnswersAreTheirLines }
{}

/// The answer to a query for all columns of all rows of a table, without that line, is loaded as the
/// same table: by the same words it has the same schema, and the same rows in their order, numbered
/// from 1.
pub fn exports_are_loaded()
    ensures { ExportsAreLoaded }
{}
