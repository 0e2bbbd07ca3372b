// What the histories of a load tell.
ghost use Rattle.load_rules.specs.Finished.{FinishedLoadsAreMade};
ghost use Rattle.load_rules.specs.Loaded.{LoadsAreTold};

/// Where all writers of a load have finished, the histories that end their site are those of the
/// load, whatever the order in which the writers came.
pub fn finished_loads_are_made()
    ensures { FinishedLoadsAreMade }
{}

/// Where a load was made, the summary of its histories is that of its documents alone.
pub fn loads_are_told()
    ensures { LoadsAreTold }
{}
