// What the arguments of a call give.
ghost use Rattle.std.specs.Prelude.{◌≡◌, ◌++◌, ◌∷◌, [], OnOk, OnErr, IfOk, MatchOption, Some, None};
ghost use Rattle.expr_plan.specs.Given.{is_given, param_at, taken, text_in, names_in, sort_in, pairs_in, query_in, kept_query_in, kept_text_in, number_in, count_or, small_in, flag_in, group_in, items_in, metrics_in, names_maybe};

use crate::given_items::{item_in, metric_in, push_some};
use crate::{Condition, GroupOp, Item, Items, Metric, Metrics};
use query_syntax::{Clauses, Query};
use sort_spec::{OnSpec, SortSpec};
use std::alloc::Global;
use std::mem;
use tuple_values::{FieldList, Memory, Text, Value};

/// What a parameter is read as.
#[derive(Drop)]
pub enum Param {
    /// It changes nothing, or was taken.
    Nothing,
    Literal(Value),
    Plain(Text),
    Names(FieldList),
    Sort(SortSpec),
    Pairs(OnSpec),
    Query(Query),
    /// A query with its text.
    KeptQuery(Query, Text),
    Number(u64),
    Small(u16),
    Flag(bool),
    Item(Item),
    Metric(Metric),
    Group(GroupOp),
}

/// A parameter under its key, or under the name of the operand that it is.
#[derive(Drop)]
pub struct Given {
    pub(crate) name: Text,
    pub(crate) param: Param,
}

/// Parameters in the order of the arguments, and the condition where there was one.
pub(crate) struct Params {
    items: Vec<Given>,
    condition: Option<Condition>,
}

// By hand, so that a function that owns parameters drops them by a call.
impl Drop for Params {
    fn drop(self) {
        let Params { items, condition } = self;
        drop(items);
        drop(condition);
    }
}

impl Params {
    /// No parameter.
    pub fn new(alloc: Global) -> Params
        ensures items { result.items.items ≡ [] }
        ensures condition { result.condition ≡ None }
    {
        Params {
            items: Vec::new(alloc),
            condition: None,
        }
    }

    /// Adds one at the end.
    pub fn push(&mut self, name: Text, param: Param) -> Result<(), Memory>
        ensures ok { OnOk result
            (self.new.items.items
            ≡ self.old.items.items ++ record { name = name; param = param } ∷ []) }
        ensures err { OnErr result (self.new.items.items ≡ self.old.items.items) }
        ensures same { self.new.condition ≡ self.old.condition }
    {
        self.items.push(Given { name, param })?;
        Ok(())
    }

    /// Adds one at the end under a copy of the name.
    pub fn add(&mut self, alloc: Global, name: &str, param: Param) -> Result<(), Memory>
        ensures ok { OnOk result
            (self.new.items.items
            ≡ self.old.items.items ++ record { name = name.now; param = param } ∷ []) }
        ensures same { self.new.condition ≡ self.old.condition }
    {
        match Text::of(alloc, name) {
            Ok(name) => self.push(name, param),
            Err(fault) => {
                drop(param);
                Err(fault)
            }
        }
    }

    /// Puts a condition in, in place of one that is there.
    pub fn put_condition(&mut self, condition: Condition)
        ensures condition { self.new.condition ≡ Some condition }
        ensures same { self.new.items.items ≡ self.old.items.items }
    {
        let before = mem::replace(&mut self.condition, Some(condition));
        drop(before);
    }

    /// Takes the condition out.
    pub fn take_condition(&mut self) -> Option<Condition>
        ensures value { result ≡ self.old.condition }
        ensures rest { self.new.items.items ≡ self.old.items.items }
    {
        self.condition.take()
    }

    /// Whether there is one of the name.
    pub fn has(&self, name: &str) -> bool
        ensures { result ≡ is_given name.now self.now.items.items }
    {
        for given in &self.items {
            if given.name.as_str() == name {
                return true;
            }
        }
        false
    }

    /// Takes the first of the name out, and leaves nothing there.
    pub fn take(&mut self, name: &str) -> Param
        ensures value { result ≡ param_at name.now self.old.items.items }
        ensures rest { self.new.items.items ≡ taken name.now self.old.items.items }
    {
        take(&mut self.items, name)
    }

    /// Takes out a text; the empty one where there is none.
    pub fn take_text(&mut self, alloc: Global, name: &str) -> Text
        ensures value { result ≡ text_in (param_at name.now self.old.items.items) }
        ensures rest { self.new.items.items ≡ taken name.now self.old.items.items }
    {
        match self.take(name) {
            Param::Plain(text) => text,
            rest => {
                drop(rest);
                Text::from_string(String::new(alloc))
            }
        }
    }

    /// Takes out a list of names; the empty one where there is none.
    pub fn take_names(&mut self, alloc: Global, name: &str) -> FieldList
        ensures value { result ≡ names_in (param_at name.now self.old.items.items) }
        ensures rest { self.new.items.items ≡ taken name.now self.old.items.items }
    {
        match self.take(name) {
            Param::Names(names) => names,
            rest => {
                drop(rest);
                FieldList::new(alloc)
            }
        }
    }

    /// Takes out a list of names, if there is one.
    pub fn take_names_maybe(&mut self, name: &str) -> Option<FieldList>
        ensures value { result ≡ names_maybe (param_at name.now self.old.items.items) }
        ensures rest { self.new.items.items ≡ taken name.now self.old.items.items }
    {
        match self.take(name) {
            Param::Names(names) => Some(names),
            rest => {
                drop(rest);
                None
            }
        }
    }

    /// Takes out a sort; that of no term where there is none.
    pub fn take_sort(&mut self, alloc: Global, name: &str) -> SortSpec
        ensures value { result ≡ sort_in (param_at name.now self.old.items.items) }
        ensures rest { self.new.items.items ≡ taken name.now self.old.items.items }
    {
        match self.take(name) {
            Param::Sort(sort) => sort,
            rest => {
                drop(rest);
                SortSpec::new(alloc)
            }
        }
    }

    /// Takes out pairs; none where there is none.
    pub fn take_pairs(&mut self, alloc: Global, name: &str) -> OnSpec
        ensures value { result ≡ pairs_in (param_at name.now self.old.items.items) }
        ensures rest { self.new.items.items ≡ taken name.now self.old.items.items }
    {
        match self.take(name) {
            Param::Pairs(pairs) => pairs,
            rest => {
                drop(rest);
                OnSpec::new(alloc)
            }
        }
    }

    /// Takes out a query; that of no clause where there is none.
    pub fn take_query(&mut self, alloc: Global, name: &str) -> Query
        ensures value { result.clauses ≡ query_in (param_at name.now self.old.items.items) }
        ensures rest { self.new.items.items ≡ taken name.now self.old.items.items }
    {
        match self.take(name) {
            Param::Query(query) => query,
            rest => {
                drop(rest);
                Query {
                    clauses: Clauses::new(alloc),
                }
            }
        }
    }

    /// Takes out a query with its text; that of no clause where there is none.
    pub fn take_kept_query(&mut self, alloc: Global, name: &str) -> (Query, Text)
        ensures query { result.0.clauses
            ≡ kept_query_in (param_at name.now self.old.items.items) }
        ensures text { result.1 ≡ kept_text_in (param_at name.now self.old.items.items) }
        ensures rest { self.new.items.items ≡ taken name.now self.old.items.items }
    {
        match self.take(name) {
            Param::KeptQuery(query, text) => (query, text),
            rest => {
                drop(rest);
                (
                    Query {
                        clauses: Clauses::new(alloc),
                    },
                    Text::from_string(String::new(alloc)),
                )
            }
        }
    }

    /// Takes out a number, if there is one.
    pub fn take_number(&mut self, name: &str) -> Option<u64>
        ensures value { result ≡ number_in (param_at name.now self.old.items.items) }
        ensures rest { self.new.items.items ≡ taken name.now self.old.items.items }
    {
        match self.take(name) {
            Param::Number(n) => Some(n),
            rest => {
                drop(rest);
                None
            }
        }
    }

    /// Takes out a number; another one where there is none.
    pub fn take_count_or(&mut self, name: &str, other: u64) -> u64
        ensures value { result ≡ count_or other (param_at name.now self.old.items.items) }
        ensures rest { self.new.items.items ≡ taken name.now self.old.items.items }
    {
        match self.take(name) {
            Param::Number(n) => n,
            rest => {
                drop(rest);
                other
            }
        }
    }

    /// Takes out a number of 16 bits; 0 where there is none.
    pub fn take_small(&mut self, name: &str) -> u16
        ensures value { result ≡ small_in (param_at name.now self.old.items.items) }
        ensures rest { self.new.items.items ≡ taken name.now self.old.items.items }
    {
        match self.take(name) {
            Param::Small(n) => n,
            rest => {
                drop(rest);
                0
            }
        }
    }

    /// Takes out what a flag says; that it isn't so where there is none.
    pub fn take_flag(&mut self, name: &str) -> bool
        ensures value { result ≡ flag_in (param_at name.now self.old.items.items) }
        ensures rest { self.new.items.items ≡ taken name.now self.old.items.items }
    {
        match self.take(name) {
            Param::Flag(flag) => flag,
            rest => {
                drop(rest);
                false
            }
        }
    }

    /// Takes out a group; that of no tuple where there is none.
    pub fn take_group(&mut self, alloc: Global, name: &str) -> GroupOp
        ensures value { result ≡ group_in (param_at name.now self.old.items.items) }
        ensures rest { self.new.items.items ≡ taken name.now self.old.items.items }
    {
        match self.take(name) {
            Param::Group(op) => op,
            rest => {
                drop(rest);
                GroupOp {
                    sort: SortSpec::new(alloc),
                    n: 0,
                }
            }
        }
    }

    /// The items among the parameters.
    #[tactic(auto, using(crate::proofs::GivenLemmas::item_steps))]
    pub fn into_items(self, alloc: Global) -> Result<Items, Memory>
        ensures { IfOk result (λ items. items ≡ items_in self.items.items) }
    {
        let mut items = Items::new(alloc);
        for given in self.into_vec() {
            push_some(&mut items, item_in(given))?;
        }
        Ok(items)
    }

    /// The metrics among the parameters.
    #[tactic(auto, using(crate::proofs::GivenLemmas::metric_steps))]
    pub fn into_metrics(self, alloc: Global) -> Result<Metrics, Memory>
        ensures { IfOk result (λ metrics. metrics ≡ metrics_in self.items.items) }
    {
        let mut metrics = Metrics::new(alloc);
        for given in self.into_vec() {
            push_some(&mut metrics, metric_in(given))?;
        }
        Ok(metrics)
    }

    /// The parameters as a vector.
    pub fn into_vec(self) -> Vec<Given>
        ensures { result.items ≡ self.items.items }
    {
        let Params { items, condition } = self;
        drop(condition);
        items
    }
}

fn take(items: &mut [Given], name: &str) -> Param
    ensures value { result ≡ param_at name.now items.old }
    ensures rest { items.new ≡ taken name.now items.old }
{
    match items.split_first_mut() {
        None => Param::Nothing,
        Some((first, rest)) => {
            if first.name.as_str() == name {
                mem::replace(&mut first.param, Param::Nothing)
            } else {
                take(rest, name)
            }
        }
    }
}
