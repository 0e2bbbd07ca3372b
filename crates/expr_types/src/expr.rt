// What an expression asks for.
ghost use Rattle.std.specs.Prelude.{◌≡◌, ◌<◌, length, slice_index_or};
ghost use Rattle.expr_types.specs.ExprTree.{ExprTree, inputs_in};
ghost use Rattle.expr_types.specs.Heights.{height};
ghost use Rattle.expr_types.specs.ExprTree.{expr_tree};

use crate::{Condition, GroupOp, Items, Metrics};
use query_syntax::Query;
use sort_spec::{OnSpec, SortSpec};
use tuple_values::{FieldList, Text, Tuple};

/// An expression: one variant for each function (Solr Reference Guide, "Streaming Expressions").
/// What changes nothing isn't kept.
#[derive(Drop)]
pub enum Expr {
    /// The current documents of a collection that match, sorted, cut to `fl`.
    Search {
        collection: Text,
        q: Query,
        fl: FieldList,
        sort: SortSpec,
        rows: Option<u64>,
        partition_keys: Option<FieldList>,
    },
    /// One tuple of literals.
    Tuple {
        fields: Tuple,
    },
    Select {
        input: Box<Expr>,
        items: Items,
    },
    Having {
        input: Box<Expr>,
        condition: Condition,
    },
    Sort {
        input: Box<Expr>,
        by: SortSpec,
    },
    Top {
        input: Box<Expr>,
        n: u64,
        sort: SortSpec,
    },
    Unique {
        input: Box<Expr>,
        over: FieldList,
    },
    Merge {
        inputs: Exprs,
        on: SortSpec,
    },
    Reduce {
        input: Box<Expr>,
        by: FieldList,
        group: GroupOp,
    },
    Rollup {
        input: Box<Expr>,
        over: FieldList,
        metrics: Metrics,
    },
    InnerJoin {
        left: Box<Expr>,
        right: Box<Expr>,
        on: OnSpec,
    },
    LeftOuterJoin {
        left: Box<Expr>,
        right: Box<Expr>,
        on: OnSpec,
    },
    Intersect {
        left: Box<Expr>,
        right: Box<Expr>,
        on: OnSpec,
    },
    Complement {
        left: Box<Expr>,
        right: Box<Expr>,
        on: OnSpec,
    },
    HashJoin {
        input: Box<Expr>,
        hashed: Box<Expr>,
        on: OnSpec,
    },
    OuterHashJoin {
        input: Box<Expr>,
        hashed: Box<Expr>,
        on: OnSpec,
    },
    Parallel {
        input: Box<Expr>,
        collection: Text,
        workers: u16,
        sort: SortSpec,
    },
    /// The documents of a collection that came since the checkpoint of the topic `id`, which is
    /// kept in the collection `checkpoints`. `q_text` is the text of `q`.
    Topic {
        checkpoints: Text,
        collection: Text,
        id: Text,
        q: Query,
        q_text: Text,
        fl: FieldList,
        init: Option<u64>,
    },
    Update {
        input: Box<Expr>,
        dest: Text,
        batch_size: u64,
    },
    Commit {
        input: Box<Expr>,
        dest: Text,
        batch_size: Option<u64>,
    },
    /// The interval is in milliseconds.
    Daemon {
        input: Box<Expr>,
        id: Text,
        interval: u64,
        terminate: bool,
    },
}

/// Expressions in their order.
pub type Exprs = Vec<Expr>;

impl Expr {
    /// How many inputs the function has.
    pub fn input_count(&self) -> u64
        ensures { result ≡ length (inputs_in (expr_tree self.now)) }
    {
        match self {
            Expr::Search { .. } | Expr::Tuple { .. } | Expr::Topic { .. } => 0,
            Expr::Select { .. }
            | Expr::Having { .. }
            | Expr::Sort { .. }
            | Expr::Top { .. }
            | Expr::Unique { .. }
            | Expr::Reduce { .. }
            | Expr::Rollup { .. }
            | Expr::Parallel { .. }
            | Expr::Update { .. }
            | Expr::Commit { .. }
            | Expr::Daemon { .. } => 1,
            Expr::InnerJoin { .. }
            | Expr::LeftOuterJoin { .. }
            | Expr::Intersect { .. }
            | Expr::Complement { .. }
            | Expr::HashJoin { .. }
            | Expr::OuterHashJoin { .. } => 2,
            Expr::Merge { inputs, .. } => inputs.len() as u64,
        }
    }

    /// The k-th input, counted from 0: the left one before the right one, and the input before what
    /// is hashed.
    pub fn input(&self, k: u64) -> &Expr
        requires { k < length (inputs_in (expr_tree self.now)) }
        ensures value { (d : ExprTree)
            → expr_tree result.now ≡ slice_index_or (inputs_in (expr_tree self.now)) k d }
        ensures lower { height (expr_tree result.now) < height (expr_tree self.now) }
    {
        match self {
            Expr::Select { input, .. }
            | Expr::Having { input, .. }
            | Expr::Sort { input, .. }
            | Expr::Top { input, .. }
            | Expr::Unique { input, .. }
            | Expr::Reduce { input, .. }
            | Expr::Rollup { input, .. }
            | Expr::Parallel { input, .. }
            | Expr::Update { input, .. }
            | Expr::Commit { input, .. }
            | Expr::Daemon { input, .. } => input,
            Expr::InnerJoin { left, right, .. }
            | Expr::LeftOuterJoin { left, right, .. }
            | Expr::Intersect { left, right, .. }
            | Expr::Complement { left, right, .. } => { if k == 0 { left } else { right } }
            Expr::HashJoin { input, hashed, .. } | Expr::OuterHashJoin { input, hashed, .. } => {
                if k == 0 { input } else { hashed }
            }
            Expr::Merge { inputs, .. } => &inputs[k as usize],
            Expr::Search { .. } | Expr::Tuple { .. } | Expr::Topic { .. } => unreachable!(),
        }
    }
}
