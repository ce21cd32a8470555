ghost use Rattle.ub_filter.specs.Laws.{ChosenAreSelected};

// Each function here does nothing, and its clause is a law of the definitions in specs/. So the law is proved, and is read
// beside the code.

/// Of the rows of the regions each choice takes the selected ones, by the boxes or by the condition.
pub fn chosen_are_selected()
    ensures { ChosenAreSelected }
{}
