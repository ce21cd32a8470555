ghost use Rattle.ub_words.specs.Laws.{HelpIsHelp, OneThingIsAsked};

// Each function here does nothing, and its clause is a law of the definitions in specs/.

/// The same words ask for one thing.
pub fn one_thing_is_asked()
    ensures { OneThingIsAsked }
{}

/// Words that ask for the help alone are told the help.
pub fn help_is_help()
    ensures { HelpIsHelp }
{}
