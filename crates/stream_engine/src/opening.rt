// Expressions, opened as streams.
ghost use Rattle.std.specs.Prelude.{ℕ, ◌≡◌, ◌<◌, ◌++◌, ◌∷◌, IfOk, OnOk, IsSome, is_some, None};
ghost use Rattle.std.specs.Prelude.{Some, [], List, length, true, false};
ghost use Rattle.std.specs.List.{AllByRecursion};
ghost use Rattle.tuple_values.specs.Document.{ByteList, Doc};
ghost use Rattle.sort_spec.specs.Sorting.{IsAscending};
ghost use Rattle.sort_spec.specs.Terms.{less};
ghost use Rattle.expr_types.specs.ExprTree.{inputs_in, inputs_of, operator_in, first_or};
ghost use Rattle.expr_types.specs.ExprTree.{expr_tree};
ghost use Rattle.expr_types.specs.Rules.{Collections, AreAsNeeded, rule_of};
ghost use Rattle.expr_types.specs.Lists.{list_of};
ghost use Rattle.expr_types.specs.Orders.{merge_list};
ghost use Rattle.expr_types.specs.Plain.{IsPlain, are_plain};
ghost use Rattle.expr_types.specs.Planned.{AreWell, AreAllWell};
ghost use Rattle.expr_types.specs.Parts.{search_parts, tuple_fields};
ghost use Rattle.expr_check.specs.Orders.{AreInOrder};
ghost use Rattle.expr_check.specs.Rules.{need_at, split_by};
ghost use Rattle.expr_check.specs.Views.{tree_of};
ghost use Rattle.expr_check.specs.Walk.{order_of, orders_of, fields_of, all_fields, keys_of};
ghost use Rattle.expr_check.specs.Walk.{own_fault, own_faults};
ghost use Rattle.source_streams.specs.Cuts.{documents_of};
ghost use Rattle.source_streams.specs.Parts.{part_of};
ghost use Rattle.part_laws.specs.Parted.{given_in_part, list_in_part, lists_in_part};
ghost use Rattle.part_laws.specs.Parted.{MayBeParted, MayAllBeParted};
ghost use Rattle.stream_engine.specs.Fed.{fed_of, fed_in, BeginsWith};
ghost use Rattle.stream_engine.specs.Flows.{rests_of};

use crate::Stream;
use crate::fed::Fed;
use crate::naming::{Told, told_of};
use crate::over_inputs::{
    exist, hash_join, having, join, merge, reduce, rollup, select, sort, top, unique,
};
use expr_check::{Checked, Order, fields_given, order_given};
use expr_types::Expr;
use shard_versions::Cut;
use sort_spec::SortSpec;
use source_streams::{Part, SearchCursor, TupleOnce};
use std::alloc::Global;
use std::collections::VecDeque;
use std::marker::Sync;
use std::thread::Threads;
use tuple_values::{FieldList, Memory, Tuples};

/// Lists of tuples with which a stream is fed: one for each outermost `parallel`, from the left to
/// the right.
pub type Feeds = Vec<Tuples>;

/// One part of the stream of a checked expression that only reads, over a cut, which holds each
/// shard of its collections. For each outermost `parallel` the stream is fed with the list that its
/// input gives. Where there are several parts the expression has partition keys, by which the part
/// is taken.
pub fn open_stream<R: Threads + Sync>(
    rt: &R,
    alloc: Global,
    checked: &Checked,
    cut: &Cut,
    feeds: Feeds,
    part: Part,
) -> Result<Stream, Memory>
    requires plain { IsPlain (tree_of checked.now) }
    requires feeds { feeds.items ≡ fed_of (λ c. documents_of c cut.now) (tree_of checked.now) }
    requires part { part.index < part.of }
    requires parted { MayBeParted part.of (tree_of checked.now) }
    ensures whole { part.of ≡ 1 → IfOk result (λ stream. stream.0
        ≡ list_of (λ c. documents_of c cut.now) (tree_of checked.now)) }
    ensures part { (keys : List ByteList) → keys_of (tree_of checked.now) ≡ Some keys
        → IfOk result (λ stream. stream.0 ≡ part_of part.index part.of keys
        (list_of (λ c. documents_of c cut.now) (tree_of checked.now))) }
    ensures lives { IfOk result (λ stream. stream.2 ≡ false) }
{
    let mut feeds = VecDeque::from(feeds);
    let opened = open_expr(rt, alloc, checked.expr(), cut, &mut feeds, part)?;
    Ok(opened.stream)
}

/// The merge of lists, each of which is in the order of a sort: all their tuples in that order,
/// those of an earlier list before those of a later one that tie with them.
pub fn merge_lists(alloc: Global, lists: Vec<Tuples>, by: &SortSpec) -> Result<Stream, Memory>
    requires { AllByRecursion (IsAscending (less by.now)) lists.items }
    ensures list { IfOk result (λ stream. stream.0 ≡ merge_list by.now lists.items) }
    ensures lives { IfOk result (λ stream. stream.2 ≡ false) }
{
    let inputs = fed_streams(alloc, lists)?;
    merge(alloc, inputs, by)
}

// A stream of each list.
fn fed_streams(alloc: Global, lists: Vec<Tuples>) -> Result<Vec<Stream>, Memory>
    ensures { IfOk result (λ streams. rests_of streams.items ≡ lists.items) }
{
    let mut streams = Vec::new(alloc);
    for tuples in lists {
        streams.push(Stream::fed(Fed::new(tuples)))?;
    }
    Ok(streams)
}

// The stream of an expression, the order in which it comes, and the fields that its tuples have.
#[derive(Drop)]
struct Opened {
    stream: Stream,
    order: Order,
    fields: FieldList,
}

// Those of all inputs of an expression.
#[derive(Drop)]
struct OpenedInputs {
    streams: Vec<Stream>,
    orders: Vec<Order>,
    fields: Vec<FieldList>,
}

// A part of the stream of an expression that has no fault, with its order and its fields. Those of
// its inputs are found once, on the way up; a parallel's stream is the first of the feeds.
#[cycle(opening)]
fn open_expr<R: Threads + Sync>(
    rt: &R,
    alloc: Global,
    expr: &Expr,
    cut: &Cut,
    feeds: &mut VecDeque<Tuples>,
    part: Part,
) -> Result<Opened, Memory>
    requires planned { AreWell (expr_tree expr.now) }
    requires faultless { own_fault (expr_tree expr.now) ≡ None }
    requires plain { IsPlain (expr_tree expr.now) }
    requires part { part.index < part.of }
    requires parted { MayBeParted part.of (expr_tree expr.now) }
    requires fed { BeginsWith (fed_of (λ c. documents_of c cut.now) (expr_tree expr.now))
        feeds.old.items }
    ensures list { IfOk result (λ opened. opened.stream.0 ≡ list_in_part
        (λ c. documents_of c cut.now) part.index part.of (expr_tree expr.now)) }
    ensures lives { IfOk result (λ opened. opened.stream.2 ≡ false) }
    ensures order { IfOk result (λ opened. opened.order ≡ order_of (expr_tree expr.now)) }
    ensures fields { IfOk result (λ opened. opened.fields ≡ fields_of (expr_tree expr.now)) }
    ensures fed { OnOk result (feeds.old.items
        ≡ fed_of (λ c. documents_of c cut.now) (expr_tree expr.now) ++ feeds.new.items) }
{
    if is_split(expr) {
        let opened = open_parallel(alloc, expr, feeds)?;
        return Ok(opened);
    }
    let OpenedInputs {
        streams,
        orders,
        fields,
    } = open_inputs(rt, alloc, expr, cut, feeds, part)?;
    let stream = open_over(rt, alloc, expr, streams, orders.as_slice(), cut, part)?;
    let order = order_given(alloc, expr, orders, fields.as_slice())?;
    let fields = fields_given(alloc, expr, fields)?;
    Ok(Opened {
        stream,
        order,
        fields,
    })
}

// Whether an expression is a parallel.
fn is_split(expr: &Expr) -> bool
    ensures { result ≡ is_some (split_by (operator_in (expr_tree expr.now))) }
{
    match expr {
        Expr::Parallel { .. } => true,
        Expr::Search { .. }
        | Expr::Tuple { .. }
        | Expr::Select { .. }
        | Expr::Having { .. }
        | Expr::Sort { .. }
        | Expr::Top { .. }
        | Expr::Unique { .. }
        | Expr::Merge { .. }
        | Expr::Reduce { .. }
        | Expr::Rollup { .. }
        | Expr::InnerJoin { .. }
        | Expr::LeftOuterJoin { .. }
        | Expr::Intersect { .. }
        | Expr::Complement { .. }
        | Expr::HashJoin { .. }
        | Expr::OuterHashJoin { .. }
        | Expr::Topic { .. }
        | Expr::Update { .. }
        | Expr::Commit { .. }
        | Expr::Daemon { .. } => false,
    }
}

// The stream of a parallel, which is the first of the feeds.
fn open_parallel(alloc: Global, expr: &Expr, feeds: &mut VecDeque<Tuples>) -> Result<Opened, Memory>
    requires { 0 < length feeds.old.items }
    ensures list { IfOk result (λ opened. feeds.old.items
        ≡ opened.stream.0 ∷ feeds.new.items) }
    ensures lives { IfOk result (λ opened. opened.stream.2 ≡ false) }
    ensures order { IfOk result (λ opened. opened.order ≡ order_of (expr_tree expr.now)) }
    ensures fields { IfOk result (λ opened. opened.fields ≡ fields_of (expr_tree expr.now)) }
{
    let Some(tuples) = feeds.pop_front() else {
        unreachable!();
    };
    let stream = Stream::fed(Fed::new(tuples));
    let Told { order, fields } = told_of(alloc, expr)?;
    Ok(Opened {
        stream,
        order,
        fields,
    })
}

// The streams of an expression's inputs in a part, in their order, with their orders and fields.
#[cycle(opening)]
fn open_inputs<R: Threads + Sync>(
    rt: &R,
    alloc: Global,
    expr: &Expr,
    cut: &Cut,
    feeds: &mut VecDeque<Tuples>,
    part: Part,
) -> Result<OpenedInputs, Memory>
    requires planned { AreAllWell (inputs_of (inputs_in (expr_tree expr.now))) }
    requires faultless { own_faults (inputs_of (inputs_in (expr_tree expr.now))) ≡ None }
    requires plain { are_plain (inputs_of (inputs_in (expr_tree expr.now))) ≡ true }
    requires part { part.index < part.of }
    requires parted { MayAllBeParted part.of (inputs_of (inputs_in (expr_tree expr.now))) }
    requires fed { BeginsWith (fed_in (λ c. documents_of c cut.now)
        (inputs_of (inputs_in (expr_tree expr.now)))) feeds.old.items }
    ensures lists { IfOk result (λ opened. rests_of opened.streams.items ≡ lists_in_part
        (λ c. documents_of c cut.now) part.index part.of
        (inputs_of (inputs_in (expr_tree expr.now)))) }
    ensures orders { IfOk result (λ opened. opened.orders.items
        ≡ orders_of (inputs_of (inputs_in (expr_tree expr.now)))) }
    ensures fields { IfOk result (λ opened. opened.fields.items
        ≡ all_fields (inputs_of (inputs_in (expr_tree expr.now)))) }
    ensures fed { OnOk result (feeds.old.items ≡ fed_in (λ c. documents_of c cut.now)
        (inputs_of (inputs_in (expr_tree expr.now))) ++ feeds.new.items) }
{
    let mut streams = Vec::new(alloc);
    let mut orders = Vec::new(alloc);
    let mut fields = Vec::new(alloc);
    for k in 0..expr.input_count() {
        let opened = open_expr(rt, alloc, expr.input(k), cut, feeds, part)?;
        streams.push(opened.stream)?;
        orders.push(opened.order)?;
        fields.push(opened.fields)?;
    }
    Ok(OpenedInputs {
        streams,
        orders,
        fields,
    })
}

// The stream of a function over the streams of its inputs, which come in these orders.
fn open_over<R: Threads + Sync>(
    rt: &R,
    alloc: Global,
    expr: &Expr,
    inputs: Vec<Stream>,
    orders: &[Order],
    cut: &Cut,
    part: Part,
) -> Result<Stream, Memory>
    requires sorted { AreAsNeeded (operator_in (expr_tree expr.now)) (rests_of inputs.items) }
    requires faultless { need_at (operator_in (expr_tree expr.now)) orders.now ≡ None }
    requires plain { (rule_of (operator_in (expr_tree expr.now))).is_plain ≡ true }
    requires unsplit { is_some (split_by (operator_in (expr_tree expr.now))) ≡ false }
    requires in_order { AreInOrder orders.now (rests_of inputs.items) }
    requires width { length inputs.items ≡ length (inputs_in (expr_tree expr.now)) }
    requires part { part.index < part.of }
    ensures list { IfOk result (λ stream. stream.0 ≡ given_in_part (λ c. documents_of c cut.now)
        part.index part.of (operator_in (expr_tree expr.now)) (rests_of inputs.items)) }
    ensures lives { IfOk result (λ stream. stream.2 ≡ false) }
{
    match expr {
        Expr::Search { .. } => open_search(rt, alloc, expr, cut, part),
        Expr::Tuple { .. } => open_tuple(alloc, expr),
        Expr::Select { items, .. } => select(alloc, only(inputs), items),
        Expr::Having { condition, .. } => having(alloc, only(inputs), condition),
        Expr::Sort { by, .. } => sort(alloc, only(inputs), by),
        Expr::Top { n, sort, .. } => top(alloc, only(inputs), *n, sort),
        Expr::Unique { over, .. } => unique(alloc, only(inputs), over),
        Expr::Merge { on, .. } => merge(alloc, inputs, on),
        Expr::Reduce { by, group, .. } => reduce(alloc, only(inputs), by, group),
        Expr::Rollup { over, metrics, .. } => rollup(alloc, only(inputs), over, metrics),
        Expr::InnerJoin { on, .. } => join(alloc, false, inputs, on, orders),
        Expr::LeftOuterJoin { on, .. } => join(alloc, true, inputs, on, orders),
        Expr::Intersect { on, .. } => exist(alloc, true, inputs, on, orders),
        Expr::Complement { on, .. } => exist(alloc, false, inputs, on, orders),
        Expr::HashJoin { on, .. } => hash_join(alloc, false, inputs, on),
        Expr::OuterHashJoin { on, .. } => hash_join(alloc, true, inputs, on),
        Expr::Parallel { .. }
        | Expr::Topic { .. }
        | Expr::Update { .. }
        | Expr::Commit { .. }
        | Expr::Daemon { .. } => unreachable!(),
    }
}

// The one stream of several.
fn only(inputs: Vec<Stream>) -> Stream
    requires { length inputs.items ≡ 1 }
    ensures { result.0 ≡ first_or [] (rests_of inputs.items) }
{
    let mut inputs = inputs;
    inputs.remove(0)
}

fn open_search<R: Threads + Sync>(
    rt: &R,
    alloc: Global,
    search: &Expr,
    cut: &Cut,
    part: Part,
) -> Result<Stream, Memory>
    requires search { IsSome (search_parts search.now) }
    requires part { part.index < part.of }
    ensures list { IfOk result (λ stream. (lists : List (List Doc)) → stream.0
        ≡ given_in_part (λ c. documents_of c cut.now) part.index part.of
        (operator_in (expr_tree search.now)) lists) }
    ensures lives { IfOk result (λ stream. stream.2 ≡ false) }
{
    let cursor = SearchCursor::make(rt, alloc, search, cut, part)?;
    Ok(Stream::search(cursor))
}

fn open_tuple(alloc: Global, tuple: &Expr) -> Result<Stream, Memory>
    requires { IsSome (tuple_fields tuple.now) }
    ensures list { IfOk result (λ stream. (docs : Collections) (index parts : ℕ)
        (lists : List (List Doc)) → stream.0
        ≡ given_in_part docs index parts (operator_in (expr_tree tuple.now)) lists) }
    ensures lives { IfOk result (λ stream. stream.2 ≡ false) }
{
    let once = TupleOnce::make(alloc, tuple)?;
    Ok(Stream::once(once))
}
