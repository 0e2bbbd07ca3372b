// What holds of all daemons.
ghost use Rattle.daemon_steps.specs.Laws.{StepsLookFirst};

/// What daemons do that are run once each looks first: each step comes right after a look at its
/// cell.
pub fn steps_look_first()
    ensures { StepsLookFirst }
{}
