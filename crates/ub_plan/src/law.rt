ghost use Rattle.ub_plan.specs.Laws.{ExplainsHaveAText, ExplainsHaveOneText, ExplainsNameEachDimension};

// Each function here does nothing, and its clause is a law of the definitions in specs/. So the law is proved, and is read
// beside the code.

/// An EXPLAIN of a plan has a text.
pub fn explains_have_a_text()
    ensures { ExplainsHaveAText }
{}

/// An EXPLAIN of a plan has no two texts.
pub fn explains_have_one_text()
    ensures { ExplainsHaveOneText }
{}

/// Where the plan is a query's, it names every dimension of each box.
pub fn explains_name_each_dimension()
    ensures { ExplainsNameEachDimension }
{}
