// Which calls may stand where.
ghost use Rattle.std.specs.Prelude.{◌≡◌};
ghost use Rattle.expr_types.specs.ExprTree.{expr_tree, operator_in};
ghost use Rattle.expr_check.specs.Places.{at_root, within, in_a_parallel, holds_reads};
ghost use Rattle.expr_check.specs.Places.{holds_topic, holds_update, holds_commit, holds_daemon};
ghost use Rattle.expr_check.specs.Places.{holds_effects};
ghost use Rattle.expr_check.specs.Rules.{stands, place_in};

use crate::Roots;
use crate::roots::{Place, Round};
use expr_types::Expr;

/// The place of the whole expression.
pub(crate) fn at_root() -> Place
    ensures { result ≡ at_root }
{
    Place {
        round: Round::Nothing,
        in_parallel: false,
    }
}

// Whether an expression may hold functions that don't only read.
fn holds_effects(roots: Roots) -> bool
    ensures { result ≡ holds_effects roots }
{
    match roots {
        Roots::Plain => false,
        Roots::All => true,
    }
}

// Whether a function that only reads may stand in such a call.
fn holds_reads(round: Round) -> bool
    ensures { result ≡ holds_reads round }
{
    match round {
        Round::Nothing | Round::Update | Round::Commit | Round::Other => true,
        Round::Daemon => false,
    }
}

// Whether a topic may.
fn holds_topic(round: Round) -> bool
    ensures { result ≡ holds_topic round }
{
    match round {
        Round::Nothing | Round::Update => true,
        Round::Commit | Round::Daemon | Round::Other => false,
    }
}

// Whether an update may.
fn holds_update(round: Round) -> bool
    ensures { result ≡ holds_update round }
{
    match round {
        Round::Nothing | Round::Commit | Round::Daemon => true,
        Round::Update | Round::Other => false,
    }
}

// Whether a commit may.
fn holds_commit(round: Round) -> bool
    ensures { result ≡ holds_commit round }
{
    match round {
        Round::Nothing | Round::Daemon => true,
        Round::Update | Round::Commit | Round::Other => false,
    }
}

// Whether a daemon may.
fn holds_daemon(round: Round) -> bool
    ensures { result ≡ holds_daemon round }
{
    match round {
        Round::Nothing => true,
        Round::Update | Round::Commit | Round::Daemon | Round::Other => false,
    }
}

/// Whether the function may stand at this place.
pub(crate) fn stands(expr: &Expr, place: Place, roots: Roots) -> bool
    ensures { result ≡ stands roots place (operator_in (expr_tree expr.now)) }
{
    match expr {
        Expr::Parallel { .. } => holds_reads(place.round) && !place.in_parallel,
        Expr::Topic { .. } => holds_effects(roots) && holds_topic(place.round),
        Expr::Update { .. } => holds_effects(roots) && holds_update(place.round),
        Expr::Commit { .. } => holds_effects(roots) && holds_commit(place.round),
        Expr::Daemon { .. } => holds_effects(roots) && holds_daemon(place.round),
        Expr::Search { .. }
        | Expr::Tuple { .. }
        | Expr::Select { .. }
        | Expr::Having { .. }
        | Expr::Sort { .. }
        | Expr::Top { .. }
        | Expr::Unique { .. }
        | Expr::Merge { .. }
        | Expr::Reduce { .. }
        | Expr::Rollup { .. }
        | Expr::InnerJoin { .. }
        | Expr::LeftOuterJoin { .. }
        | Expr::Intersect { .. }
        | Expr::Complement { .. }
        | Expr::HashJoin { .. }
        | Expr::OuterHashJoin { .. } => holds_reads(place.round),
    }
}

// The place in such a call that stands at a place.
fn within(round: Round, place: Place) -> Place
    ensures { result ≡ within round place }
{
    Place {
        round,
        in_parallel: place.in_parallel,
    }
}

// The place in a parallel.
fn in_a_parallel() -> Place
    ensures { result ≡ in_a_parallel }
{
    Place {
        round: Round::Other,
        in_parallel: true,
    }
}

/// The place of the inputs of a function that stands at a place.
pub(crate) fn place_in(expr: &Expr, place: Place) -> Place
    ensures { result ≡ place_in (operator_in (expr_tree expr.now)) place }
{
    match expr {
        Expr::Parallel { .. } => in_a_parallel(),
        Expr::Update { .. } => within(Round::Update, place),
        Expr::Commit { .. } => within(Round::Commit, place),
        Expr::Daemon { .. } => within(Round::Daemon, place),
        Expr::Search { .. }
        | Expr::Tuple { .. }
        | Expr::Select { .. }
        | Expr::Having { .. }
        | Expr::Sort { .. }
        | Expr::Top { .. }
        | Expr::Unique { .. }
        | Expr::Merge { .. }
        | Expr::Reduce { .. }
        | Expr::Rollup { .. }
        | Expr::InnerJoin { .. }
        | Expr::LeftOuterJoin { .. }
        | Expr::Intersect { .. }
        | Expr::Complement { .. }
        | Expr::HashJoin { .. }
        | Expr::OuterHashJoin { .. }
        | Expr::Topic { .. } => within(Round::Other, place),
    }
}
