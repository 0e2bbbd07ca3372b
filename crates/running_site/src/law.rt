// That closed histories are the actual ones, and that a pass can be alone.
ghost use Rattle.running_site.specs.Alone.{IsLawOfOnePass};
ghost use Rattle.running_site.specs.Ends.{IsOneEnd};

/// What `close` says of the histories that it gives is so of one end alone: in each cell just those
/// entries that the passes which appended them have seen.
pub fn passes_have_one_end<D>()
    ensures { IsOneEnd D }
{}

/// Of a site with one pass: each entry that the pass has seen is its own. A look adds entries of
/// others alone, so there it adds none.
pub fn a_lone_pass_sees_its_own<D>()
    ensures { IsLawOfOnePass D }
{}
