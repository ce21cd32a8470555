ghost use Rattle.ub_journal_page.specs.Laws.{JournalsAreReadBack, JournalsChangeOthers};

/// A journal is read back: the same pages spell no two.
pub fn journals_are_read_back()
    ensures { JournalsAreReadBack }
{}

/// The changes of a journal are of other pages than the first, and of pages that the table is to have.
pub fn journals_change_others()
    ensures { JournalsChangeOthers }
{}
