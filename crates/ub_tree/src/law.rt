ghost use Rattle.ub_tree.specs.Laws.{SpansAscend, PagesDiffer, SpansCoverTheSpace, RowsLieInSpans, RegionsAreTold, NextIsTheFirst, NextIsLater, AnswersAreThoseThatMeet, AnswersAreRegionsThatMeet, AnswersAscend, AnswersCover, GrownIsNotFull, WellPagesAreSound, SoundTreesAreWell, FirstFaultIsOne, WholeIsTold, StretchesBegin, LowestAreRegions, PartsAreTold, PartsAreBelow, PartsAscend, PartsLieWithin, PartsLieIn, PartsHold, AllAreWithin, LowestHoldOne, PartsCover, StretchIsItsRegions, SomeRegionMeets};

// Each function here does nothing, and its clauses are laws of the definitions in specs/. So the laws are proved, and are read
// beside the code.

/// Of two regions of a sound tree the later one begins with the later key, and no two stand on one page. Each address of the space lies
/// in the span of some region, and each row's address in that of the row's region. A sound tree tells of its regions, each with its span,
/// and of no others.
pub fn sound_trees_have_regions()
    ensures spans_ascend { SpansAscend }
    ensures pages_differ { PagesDiffer }
    ensures spans_cover_the_space { SpansCoverTheSpace }
    ensures rows_lie_in_spans { RowsLieInSpans }
    ensures regions_are_told { RegionsAreTold }
{}

/// Of a sound tree `next_meeting` gives the first of its regions, later than the one given, that meets the boxes, or none. What it gives
/// of any tree is a region that the tree tells of; it begins later than the one given, and meets the boxes.
pub fn next_meetings()
    ensures next_is_the_first { NextIsTheFirst }
    ensures next_is_later { NextIsLater }
{}

/// `next_meeting` of a sound tree, from the beginning on and each time after the last answer, answers the regions that meet the boxes,
/// each once and in order, and no others. Over any tree it answers regions that the tree tells of and that meet the boxes, and of two
/// such answers the later one begins with the later key, so that none comes twice. Over an honest store, of such answers until there is
/// none each key of the space whose address is in the boxes is held by one of them: no page that is refused is passed over.
pub fn answers_of_next_meeting()
    ensures answers_are_those_that_meet { AnswersAreThoseThatMeet }
    ensures answers_are_regions_that_meet { AnswersAreRegionsThatMeet }
    ensures answers_ascend { AnswersAscend }
    ensures answers_cover { AnswersCover }
{}

/// A tree that was opened, and whose pages are well, is sound, and its pages are those of a closed table; and the pages of a sound tree
/// are well. So `check` answers Ok just where they are, device and memory aside. There is one first fault at most: where the check of a
/// tree stops at one, it stops at no other. So `check` answers that one, device and memory aside.
pub fn checks_of_trees()
    ensures well_pages_are_sound { WellPagesAreSound }
    ensures sound_trees_are_well { SoundTreesAreWell }
    ensures first_fault_is_one { FirstFaultIsOne }
{}

/// The index of a sound tree into which rows were only put, and none taken out, isn't full.
pub fn grown_is_not_full()
    ensures { GrownIsNotFull }
{}

/// The whole of any tree is a stretch that it tells of. Each such stretch holds its first key, and is of no higher level than the whole. One
/// of level 0 is a region that the tree tells of.
pub fn stretches_are_told()
    ensures whole_is_told { WholeIsTold }
    ensures stretches_begin { StretchesBegin }
    ensures lowest_are_regions { LowestAreRegions }
{}

/// Over any tree, the parts that opening gives of a stretch that the tree tells of are again such stretches, of the level below, and meet
/// the boxes. Each key of a part is one of the stretch, and comes before each key of a later part.
pub fn parts_are_told()
    ensures parts_are_told { PartsAreTold }
    ensures parts_are_below { PartsAreBelow }
    ensures parts_ascend { PartsAscend }
    ensures parts_lie_within { PartsLieWithin }
{}

/// Over any tree, each address of a part lies in the stretch, and each key of the stretch whose address is in the boxes is held by a part.
pub fn parts_leave_none_out()
    ensures parts_lie_in { PartsLieIn }
    ensures parts_hold { PartsHold }
{}

/// Each region of a sound tree is within the whole; within a stretch of level 0 is itself alone; and of those within a stretch that is opened
/// the ones that meet the boxes are those that do within its parts, one part after the other. An address lies in a stretch just where it
/// lies in a region within it: so some region within it meets the boxes where it does.
pub fn stretches_of_sound_trees()
    ensures all_are_within { AllAreWithin }
    ensures lowest_hold_one { LowestHoldOne }
    ensures parts_cover { PartsCover }
    ensures stretch_is_its_regions { StretchIsItsRegions }
    ensures some_region_meets { SomeRegionMeets }
{}
