// What a file stands for is one list of steps, or it is damaged at one place.
ghost use Rattle.commit_log.specs.Laws.{AStopKeepsTheSteps, DamageExcludes, OneDamage, OneReading, StopsAreHarmless};

/// A file stands for one list of steps.
pub fn one_reading()
    ensures { OneReading }
{}

/// A damaged file stands for no steps.
pub fn damage_excludes()
    ensures { DamageExcludes }
{}

/// A file is damaged at one place.
pub fn one_damage()
    ensures { OneDamage }
{}

/// What a stop leaves while a step is appended stands for the steps before it, with it or without.
pub fn a_stop_keeps_the_steps()
    ensures { AStopKeepsTheSteps }
{}

/// What a stop leaves within an append or between two can be opened, and stands for nothing but the
/// steps before the append, with its own or without.
pub fn stops_are_harmless()
    ensures { StopsAreHarmless }
{}
