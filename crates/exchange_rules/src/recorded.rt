// What own marks record of accesses that follow a course.
ghost use Rattle.exchange_rules.specs.Recorded.{FollowingIsRecorded, FollowingIsLookedAt};

/// What a writer appended while it followed a course is just what its own marks say.
pub fn following_is_recorded<A>()
    ensures { FollowingIsRecorded A }
{}

/// Each own mark of a course that looks first has a mark of its cell that ends where it begins.
pub fn following_is_looked_at<A>()
    ensures { FollowingIsLookedAt A }
{}
