ghost use Rattle.ub_shell.specs.Laws.{AppendedTablesHaveTheRows, AskingLeavesTheTable, CheckedTablesAreRunAsSound, CheckedTablesAreSound, CheckedTablesStand, CheckingLeavesTheTable, CrashesLeaveATable, DescribingLeavesTheTable, FailedRunsLoseNothing, FullTablesAreLeft, KeptRunsLast, LoadedTablesStand, NoRowsNoChange, OldTablesAreNotLost, OnlyHelpIsWritten, OnlyQueriesNote, OnlySoundTablesAreUpgraded, RefusedDataLeavesTheTable, SoundTablesPass, UnchangedTablesAreLeft, UpgradedTablesAreTheSame, UpgradingLeavesTheOldTable, WhatWasDoneStands, WrongWordsAreTold};

// Each function here does nothing, and its clause is a law of the definitions in specs/.

/// Where the words ask for the help alone, only the help is written.
pub fn only_help_is_written()
    ensures { OnlyHelpIsWritten }
{}

/// Where the words ask for nothing, only that is told: no file is read and nothing is looked for.
pub fn wrong_words_are_told()
    ensures { WrongWordsAreTold }
{}

/// A command that is no query leaves the second output as it was.
pub fn only_queries_note()
    ensures { OnlyQueriesNote }
{}

/// A table file on which a script was run that only asks, by `run` or `query`, is as it was, page for page, whatever it is and
/// however the run has ended.
pub fn asking_leaves_the_table()
    ensures { AskingLeavesTheTable }
{}

/// A table file that was described is as it was, page for page, whatever it is and however that has ended.
pub fn describing_leaves_the_table()
    ensures { DescribingLeavesTheTable }
{}

/// A table file that was checked is as it was, page for page, whatever it is and however that has ended.
pub fn checking_leaves_the_table()
    ensures { CheckingLeavesTheTable }
{}

/// A table file that was checked, with nothing wrong, is a closed table.
pub fn checked_tables_are_sound()
    ensures { CheckedTablesAreSound }
{}

/// A closed table that is checked is found well, and it is told how many rows and regions it has; unless its file failed or memory
/// was refused.
pub fn sound_tables_pass()
    ensures { SoundTablesPass }
{}

/// Where a table file was checked, with nothing wrong, and holds still what it did then, it is a closed table, and each script that
/// is run on it is run on this table, by a sound tree; unless a file failed or memory was refused, or a journal stands beside it that
/// is damaged or another table's, which is told.
pub fn checked_tables_are_run_as_sound()
    ensures { CheckedTablesAreRunAsSound }
{}

/// A table file of an older version is as it was, page for page, whatever it is and however making it anew at another path has
/// ended.
pub fn upgrading_leaves_the_old_table()
    ensures { UpgradingLeavesTheOldTable }
{}

/// Where a table file was made anew, and all was done, the old one was a closed table of an older version, and the new one is a closed
/// table with the same schema, regions, rows and next number.
pub fn only_sound_tables_are_upgraded()
    ensures { OnlySoundTablesAreUpgraded }
{}

/// Where a closed table of an older version was made anew, and all was done, the new table file is a closed table with the same
/// schema, regions, rows and next number.
pub fn upgraded_tables_are_the_same()
    ensures { UpgradedTablesAreTheSame }
{}

/// Where a script was run on a closed table, and the closing after it wasn't refused, a closed table is left, which stands where
/// the script's statements left it, also after a fault of the run.
pub fn what_was_done_stands()
    ensures { WhatWasDoneStands }
{}

/// A script that was run to its end on a table file, and whose replies put in no row and take out none, leaves the pages as they
/// were.
pub fn unchanged_tables_are_left()
    ensures { UnchangedTablesAreLeft }
{}

/// So does one that ended at an INSERT which found no number left, or no room in the index, after such replies.
pub fn full_tables_are_left()
    ensures { FullTablesAreLeft }
{}

/// However a run or a query has ended on a table file, that holds what it held, or the pages that were left once the run was closed,
/// and nothing else.
pub fn failed_runs_lose_nothing()
    ensures { FailedRunsLoseNothing }
{}

/// Where a script was run that may change the table, and the status is `Done`, `Refused`, or that of a statement's fault, what was
/// done is kept: the table file holds the pages that the closed run left, and each crash leaves them there. So it is of a query, but
/// that the status `Memory` of one says nothing of it.
pub fn kept_runs_last()
    ensures { KeptRunsLast }
{}

/// However a load or an upgrade has ended into a path that held pages, that holds what it held, or the pages of the new table.
pub fn old_tables_are_not_lost()
    ensures { OldTablesAreNotLost }
{}

/// Where a path holds a closed table, and a crash before a command would have left one there, each crash while the command works, and
/// after it, leaves one there: the same, or the one that a whole run of the command leaves.
pub fn crashes_leave_a_table()
    ensures { CrashesLeaveATable }
{}

/// Where rows were to be appended to a table file, and the status says that the command line, the data or the table was refused, or
/// memory, the file holds what it held.
pub fn refused_data_leaves_the_table()
    ensures { RefusedDataLeavesTheTable }
{}

/// Where the rows of a file were to be appended that has none, the table file holds what it held, however that has ended.
pub fn no_rows_no_change()
    ensures { NoRowsNoChange }
{}

/// Where rows were appended to a closed table, and all was done, its file is a closed table that has them behind its own, in the order
/// of the text, with numbers from the one on that was next.
pub fn appended_tables_have_the_rows()
    ensures { AppendedTablesHaveTheRows }
{}

/// Where a table file was checked, with nothing wrong, the pages that it lent are those of a closed table, which stands somewhere; and
/// where they are, nothing is found wrong, unless a file or the output failed or memory was refused.
pub fn checked_tables_stand()
    ensures { CheckedTablesStand }
{}

/// Where a CSV file was loaded, and all was done, the table file is a closed table that has the rows of the text, in order, in the
/// regions that they make one after the other.
pub fn loaded_tables_stand()
    ensures { LoadedTablesStand }
{}
