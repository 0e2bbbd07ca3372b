// The table: a row for each function.
ghost use Rattle.std.specs.Prelude.{◌≡◌, map};
ghost use Rattle.expr_plan.specs.Table.{row_of, a_row, paired_row, hashed_row};
ghost use Rattle.expr_plan.specs.TableViews.{key_shape, function_row};
ghost use Rattle.expr_plan.specs.declared.row.Inputs.TheVariants.{Exactly};

use crate::groups::COUNT_LIMIT;
use crate::row::{Function, Helpers, Inputs, Key, Row, Shape};

// The greatest number of tuples in a batch.
const BATCH_LIMIT: u64 = 10_000;

const ROWS: Shape = Shape::Number {
    low: 0,
    high: i64::MAX as u64,
};

const COUNT: Shape = Shape::Number {
    low: 1,
    high: COUNT_LIMIT,
};

const WORKERS: Shape = Shape::Small { low: 1, high: 16 };

const CHECKPOINT: Shape = Shape::Number {
    low: 0,
    high: i64::MAX as u64,
};

const UPDATE_BATCH: Shape = Shape::Number {
    low: 1,
    high: BATCH_LIMIT,
};

const COMMIT_BATCH: Shape = Shape::Number {
    low: 0,
    high: BATCH_LIMIT,
};

// A day, in milliseconds.
const INTERVAL: Shape = Shape::Number {
    low: 0,
    high: 86_400_000,
};

fn search_row() -> Row
    ensures { function_row result ≡ row_of Function.Search }
{
    Row {
        name: "search",
        inputs: Inputs::Exactly(0),
        operands: &["collection"],
        helpers: Helpers::Nothing,
        mandatory: &[
            Key("q", Shape::Query),
            Key("fl", Shape::FieldNames),
            Key("sort", Shape::Sort),
        ],
        optional: &[
            Key("rows", ROWS),
            Key("qt", Shape::Anything),
            Key("partitionKeys", Shape::Names),
        ],
        others: None,
    }
}

fn tuple_row() -> Row
    ensures { function_row result ≡ row_of Function.Tuple }
{
    Row {
        name: "tuple",
        inputs: Inputs::Exactly(0),
        operands: &[],
        helpers: Helpers::Nothing,
        mandatory: &[],
        optional: &[],
        others: Some(Shape::Literal),
    }
}

fn merge_row() -> Row
    ensures { function_row result ≡ row_of Function.Merge }
{
    Row {
        name: "merge",
        inputs: Inputs::AtLeast(2),
        operands: &[],
        helpers: Helpers::Nothing,
        mandatory: &[Key("on", Shape::Sort)],
        optional: &[],
        others: None,
    }
}

// The row of a function of one input, with these helpers and with keys that have to be given.
fn helped_row(name: &'static str, helpers: Helpers, mandatory: &'static [Key]) -> Row
    ensures { function_row result ≡ record (a_row name.now (Exactly 1)) {
      helpers = helpers;
      mandatory = map key_shape mandatory.now;
    } }
{
    Row {
        name,
        inputs: Inputs::Exactly(1),
        operands: &[],
        helpers,
        mandatory,
        optional: &[],
        others: None,
    }
}

// The row of a function of two inputs by themselves and of pairs.
fn paired_row(name: &'static str) -> Row
    ensures { function_row result ≡ paired_row name.now }
{
    Row {
        name,
        inputs: Inputs::Exactly(2),
        operands: &[],
        helpers: Helpers::Nothing,
        mandatory: &[Key("on", Shape::Pairs)],
        optional: &[],
        others: None,
    }
}

// The row of a function of an input by itself, of one under a key, and of pairs.
fn hashed_row(name: &'static str) -> Row
    ensures { function_row result ≡ hashed_row name.now }
{
    Row {
        name,
        inputs: Inputs::Exactly(1),
        operands: &[],
        helpers: Helpers::Nothing,
        mandatory: &[Key("hashed", Shape::Input), Key("on", Shape::Pairs)],
        optional: &[],
        others: None,
    }
}

fn parallel_row() -> Row
    ensures { function_row result ≡ row_of Function.Parallel }
{
    Row {
        name: "parallel",
        inputs: Inputs::Exactly(1),
        operands: &["workerCollection"],
        helpers: Helpers::Nothing,
        mandatory: &[Key("workers", WORKERS), Key("sort", Shape::Sort)],
        optional: &[],
        others: None,
    }
}

fn topic_row() -> Row
    ensures { function_row result ≡ row_of Function.Topic }
{
    Row {
        name: "topic",
        inputs: Inputs::Exactly(0),
        operands: &["checkpointCollection", "collection"],
        helpers: Helpers::Nothing,
        mandatory: &[
            Key("id", Shape::Id),
            Key("q", Shape::KeptQuery),
            Key("fl", Shape::FieldNames),
        ],
        optional: &[Key("initialCheckpoint", CHECKPOINT)],
        others: None,
    }
}

fn update_row() -> Row
    ensures { function_row result ≡ row_of Function.Update }
{
    Row {
        name: "update",
        inputs: Inputs::Exactly(1),
        operands: &["destination"],
        helpers: Helpers::Nothing,
        mandatory: &[],
        optional: &[
            Key("batchSize", UPDATE_BATCH),
            Key("pruneVersionField", Shape::True),
        ],
        others: None,
    }
}

fn commit_row() -> Row
    ensures { function_row result ≡ row_of Function.Commit }
{
    Row {
        name: "commit",
        inputs: Inputs::Exactly(1),
        operands: &["destination"],
        helpers: Helpers::Nothing,
        mandatory: &[],
        optional: &[
            Key("batchSize", COMMIT_BATCH),
            Key("waitFlush", Shape::Flag),
            Key("waitSearcher", Shape::Flag),
            Key("softCommit", Shape::Flag),
        ],
        others: None,
    }
}

fn daemon_row() -> Row
    ensures { function_row result ≡ row_of Function.Daemon }
{
    Row {
        name: "daemon",
        inputs: Inputs::Exactly(1),
        operands: &[],
        helpers: Helpers::Nothing,
        mandatory: &[Key("id", Shape::Id)],
        optional: &[Key("runInterval", INTERVAL), Key("terminate", Shape::Flag)],
        others: None,
    }
}

/// The row of a function.
pub(crate) fn row_of(function: Function) -> Row
    ensures { function_row result ≡ row_of function }
{
    match function {
        Function::Search => search_row(),
        Function::Tuple => tuple_row(),
        Function::Select => helped_row("select", Helpers::Items, &[]),
        Function::Having => helped_row("having", Helpers::Condition, &[]),
        Function::Sort => helped_row("sort", Helpers::Nothing, &[Key("by", Shape::Sort)]),
        Function::Top => helped_row(
            "top",
            Helpers::Nothing,
            &[Key("n", COUNT), Key("sort", Shape::Sort)],
        ),
        Function::Unique => helped_row("unique", Helpers::Nothing, &[Key("over", Shape::Names)]),
        Function::Merge => merge_row(),
        Function::Reduce => helped_row("reduce", Helpers::Group, &[Key("by", Shape::Names)]),
        Function::Rollup => helped_row("rollup", Helpers::Metrics, &[Key("over", Shape::Names)]),
        Function::InnerJoin => paired_row("innerJoin"),
        Function::LeftOuterJoin => paired_row("leftOuterJoin"),
        Function::Intersect => paired_row("intersect"),
        Function::Complement => paired_row("complement"),
        Function::HashJoin => hashed_row("hashJoin"),
        Function::OuterHashJoin => hashed_row("outerHashJoin"),
        Function::Parallel => parallel_row(),
        Function::Topic => topic_row(),
        Function::Update => update_row(),
        Function::Commit => commit_row(),
        Function::Daemon => daemon_row(),
    }
}
