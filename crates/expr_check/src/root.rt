// What a checked expression does at its root, with its parts.
ghost use Rattle.std.specs.Prelude.{◌≡◌, ◌<◌, IsSome, Some, true};
ghost use Rattle.expr_types.specs.ExprTree.{node, an_expr, no_exprs, update, commit, daemon};
ghost use Rattle.expr_types.specs.ExprTree.{operator_in};
ghost use Rattle.expr_types.specs.Heights.{height};
ghost use Rattle.expr_types.specs.Planned.{IsPlanned};
ghost use Rattle.expr_types.specs.Rules.{rule_of};
ghost use Rattle.expr_check.specs.Held.{IsFaultless};
ghost use Rattle.expr_check.specs.Parts.{input_of};
ghost use Rattle.expr_check.specs.Roots.{IsUpdateOf, IsCommitOf, IsDaemonOf, IsRootOf};
ghost use Rattle.expr_check.specs.Roots.{under_update, under_commit, under_daemon};
ghost use Rattle.expr_check.specs.Views.{tree_of};

use crate::Checked;
use expr_types::Expr;
use query_syntax::Query;
use tuple_values::{FieldList, Text};

/// A topic: the documents of a collection that came since the checkpoint of the topic `id`, which is
/// kept in the collection `checkpoints`. `q_text` is the text of `q`.
#[derive(Clone, Copy)]
pub struct TopicRoot<'a> {
    pub checkpoints: &'a Text,
    pub collection: &'a Text,
    pub id: &'a Text,
    pub q: &'a Query,
    pub q_text: &'a Text,
    pub fl: &'a FieldList,
    pub init: Option<u64>,
}

/// What an update is fed by.
#[derive(Clone, Copy)]
pub enum Feed<'a> {
    /// An expression that only reads.
    Reads,
    Topic(TopicRoot<'a>),
}

/// An update: what the input gives is written to `dest`, in batches.
#[derive(Clone, Copy)]
pub struct UpdateRoot<'a> {
    pub dest: &'a Text,
    pub batch_size: u64,
    pub input: &'a Checked,
    pub feed: Feed<'a>,
}

/// What a commit runs.
#[derive(Clone, Copy)]
pub enum Inner<'a> {
    /// An expression that only reads.
    Reads,
    Update(UpdateRoot<'a>),
}

/// A commit: `dest` is committed as the input gives tuples.
#[derive(Clone, Copy)]
pub struct CommitRoot<'a> {
    pub dest: &'a Text,
    pub batch_size: Option<u64>,
    pub input: &'a Checked,
    pub inner: Inner<'a>,
}

/// What a daemon runs.
#[derive(Clone, Copy)]
pub enum Action<'a> {
    Update(UpdateRoot<'a>),
    Commit(CommitRoot<'a>),
}

/// A daemon: the input is run again and again. The interval is in milliseconds.
#[derive(Clone, Copy)]
pub struct DaemonRoot<'a> {
    pub id: &'a Text,
    pub interval: u64,
    pub terminate: bool,
    pub input: &'a Checked,
    pub action: Action<'a>,
}

/// What a checked expression does.
#[derive(Clone, Copy)]
pub enum Root<'a> {
    /// It only reads.
    Reads,
    Topic(TopicRoot<'a>),
    Update(UpdateRoot<'a>),
    Commit(CommitRoot<'a>),
    Daemon(DaemonRoot<'a>),
}

impl<'a> Root<'a> {
    // What it is as the input of an update; none where it may not be that.
    fn under_update(self) -> Option<Feed<'a>>
        ensures { result ≡ under_update self.entry }
    {
        match self {
            Root::Reads => Some(Feed::Reads),
            Root::Topic(topic) => Some(Feed::Topic(topic)),
            Root::Update(_) | Root::Commit(_) | Root::Daemon(_) => None,
        }
    }

    // What it is as the input of a commit; none where it may not be that.
    fn under_commit(self) -> Option<Inner<'a>>
        ensures { result ≡ under_commit self.entry }
    {
        match self {
            Root::Reads => Some(Inner::Reads),
            Root::Update(update) => Some(Inner::Update(update)),
            Root::Topic(_) | Root::Commit(_) | Root::Daemon(_) => None,
        }
    }

    // What it is as the input of a daemon; none where it may not be that.
    fn under_daemon(self) -> Option<Action<'a>>
        ensures { result ≡ under_daemon self.entry }
    {
        match self {
            Root::Update(update) => Some(Action::Update(update)),
            Root::Commit(commit) => Some(Action::Commit(commit)),
            Root::Reads | Root::Topic(_) | Root::Daemon(_) => None,
        }
    }
}

// An update of a checked input, whose root is given.
fn update_root<'a>(
    dest: &'a Text,
    batch_size: u64,
    input: &'a Checked,
    root: Root<'a>,
) -> UpdateRoot<'a>
    requires planned { IsPlanned
        (node (update dest.now batch_size) (an_expr (tree_of input.now) no_exprs)) }
    requires placed { IsFaultless
        (node (update dest.now batch_size) (an_expr (tree_of input.now) no_exprs)) }
    requires root { IsRootOf (tree_of input.now) root }
    ensures { IsUpdateOf (node (update dest.now batch_size) (an_expr (tree_of input.now) no_exprs))
        result }
{
    let feed = root.under_update().unwrap();
    UpdateRoot {
        dest,
        batch_size,
        input,
        feed,
    }
}

// A commit of a checked input, whose root is given.
fn commit_root<'a>(
    dest: &'a Text,
    batch_size: Option<u64>,
    input: &'a Checked,
    root: Root<'a>,
) -> CommitRoot<'a>
    requires placed { IsFaultless
        (node (commit dest.now batch_size) (an_expr (tree_of input.now) no_exprs)) }
    requires root { IsRootOf (tree_of input.now) root }
    ensures { IsCommitOf (node (commit dest.now batch_size) (an_expr (tree_of input.now) no_exprs))
        result }
{
    let inner = root.under_commit().unwrap();
    CommitRoot {
        dest,
        batch_size,
        input,
        inner,
    }
}

// A daemon of a checked input, whose root is given.
fn daemon_root<'a>(
    id: &'a Text,
    interval: u64,
    terminate: bool,
    input: &'a Checked,
    root: Root<'a>,
) -> DaemonRoot<'a>
    requires placed { IsFaultless
        (node (daemon id.now interval terminate) (an_expr (tree_of input.now) no_exprs)) }
    requires root { IsRootOf (tree_of input.now) root }
    ensures { IsDaemonOf (node (daemon id.now interval terminate)
        (an_expr (tree_of input.now) no_exprs)) result }
{
    let action = root.under_daemon().unwrap();
    DaemonRoot {
        id,
        interval,
        terminate,
        input,
        action,
    }
}

impl Checked {
    // The input of a function that runs it.
    fn run_input(&self) -> &Checked
        requires { IsSome (input_of (tree_of self.now)) }
        ensures input { input_of (tree_of self.now) ≡ Some (tree_of result.now) }
        ensures lower { height (tree_of result.now) < height (tree_of self.now) }
    {
        self.input().unwrap()
    }

    // An expression whose function only reads: so does all that stands in it.
    #[tactic(auto, using(crate::proofs::RootLemmas::plain_root))]
    fn reading(&self) -> Root<'_>
        requires { (rule_of (operator_in (tree_of self.now))).is_plain ≡ true }
        ensures { IsRootOf (tree_of self.now) result }
    {
        let _expr = self.expr();
        Root::Reads
    }

    /// What the expression does, with its parts. Takes no memory.
    pub fn root(&self) -> Root<'_>
        ensures root { IsRootOf (tree_of self.now) result }
        ensures planned { IsPlanned (tree_of self.now) }
    {
        match self.expr() {
            Expr::Search { .. }
            | Expr::Tuple { .. }
            | Expr::Select { .. }
            | Expr::Having { .. }
            | Expr::Sort { .. }
            | Expr::Top { .. }
            | Expr::Unique { .. }
            | Expr::Merge { .. }
            | Expr::Reduce { .. }
            | Expr::Rollup { .. }
            | Expr::InnerJoin { .. }
            | Expr::LeftOuterJoin { .. }
            | Expr::Intersect { .. }
            | Expr::Complement { .. }
            | Expr::HashJoin { .. }
            | Expr::OuterHashJoin { .. }
            | Expr::Parallel { .. } => self.reading(),
            Expr::Topic {
                checkpoints,
                collection,
                id,
                q,
                q_text,
                fl,
                init,
            } => Root::Topic(TopicRoot {
                checkpoints,
                collection,
                id,
                q,
                q_text,
                fl,
                init: *init,
            }),
            Expr::Update {
                dest,
                batch_size,
                ..
            } => {
                let input = self.run_input();
                Root::Update(update_root(dest, *batch_size, input, input.root()))
            }
            Expr::Commit {
                dest,
                batch_size,
                ..
            } => {
                let input = self.run_input();
                Root::Commit(commit_root(dest, *batch_size, input, input.root()))
            }
            Expr::Daemon {
                id,
                interval,
                terminate,
                ..
            } => {
                let input = self.run_input();
                Root::Daemon(daemon_root(id, *interval, *terminate, input, input.root()))
            }
        }
    }
}
