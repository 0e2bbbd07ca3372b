// The laws of following a course, for every answer that a course may have.
ghost use Rattle.exchange_rules.specs.Laws.{FollowingStays, FollowingJoins, FollowingGoesOn, RunsAlone, OwnStepsAreRecorded, StepsAreLookedAt};
ghost use Rattle.exchange_rules.specs.Looking.{RowsLookFirst};
ghost use Rattle.exchange_rules.specs.RunLaws.{RunsLookFirst};

/// What a writer did follows its course over all that the writer sees later, too.
pub fn following_stays<A>()
    ensures { FollowingStays A }
{}

/// What a writer did goes on from where it is in its course.
pub fn following_joins<A>()
    ensures { FollowingJoins A }
{}

/// What a writer did follows each longer course, too.
pub fn following_goes_on<A, B>()
    ensures { FollowingGoesOn A B }
{}

/// What a writer that is alone leaves and answers is a function of what it began with.
pub fn alone_it_is_a_function<A>()
    ensures { RunsAlone A }
{}

/// What a writer appended is just what its record says.
pub fn own_steps_are_recorded<A>()
    ensures { OwnStepsAreRecorded A }
{}

/// Each step of a course that looks first is right behind what its look showed.
pub fn steps_are_looked_at<A>()
    ensures { StepsAreLookedAt A }
{}

/// Updates, commits, cuts, deliveries and the calls on topics look first.
pub fn rows_look_first()
    ensures { RowsLookFirst }
{}

/// Updates of tuples, their commits, and topics look first.
pub fn runs_look_first<B>()
    ensures { RunsLookFirst B }
{}
