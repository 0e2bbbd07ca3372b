// What holds of all expressions.
ghost use Rattle.root_runs.specs.Laws.{RootsLookFirst};

/// What each expression does looks first: each step comes right after a look at its cell.
pub fn roots_look_first()
    ensures { RootsLookFirst }
{}
