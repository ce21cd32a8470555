ghost use Rattle.ub_exec.specs.Laws.{SoundTreesStand, StandsAreOne, TreesStandSoundly, InsertionKeepsStands, RemovalKeepsStands, DeletionLeavesTheOthers, NumbersAreNeverUsedAgain};

// Each function here does nothing, and its clause is a law of the definitions in specs/. So the law is proved, and is read
// beside the code.

/// The table of a sound tree stands somewhere.
pub fn sound_trees_stand()
    ensures { SoundTreesStand }
{}

/// It stands in one way only.
pub fn stands_are_one()
    ensures { StandsAreOne }
{}

/// Where the table of a tree stands, its regions are those of that table.
pub fn trees_stand_soundly()
    ensures { TreesStandSoundly }
{}

/// Where a row of the next number is put in, the regions are those of the table then.
pub fn insertion_keeps_stands()
    ensures { InsertionKeepsStands }
{}

/// Where a row of the table is taken out, the regions are those of the table then.
pub fn removal_keeps_stands()
    ensures { RemovalKeepsStands }
{}

/// A deletion leaves of the table the rows that aren't selected, and no others.
pub fn deletion_leaves_the_others()
    ensures { DeletionLeavesTheOthers }
{}

/// No number is used again: taking rows out leaves the next one.
pub fn numbers_are_never_used_again()
    ensures { NumbersAreNeverUsedAgain }
{}
