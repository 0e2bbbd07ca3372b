// The functions that are known, and what is read off their rows.
ghost use Rattle.std.specs.Prelude.{◌≡◌, map, option_map, bytes_eq};
ghost use Rattle.std.specs.List.{find};
ghost use Rattle.expr_plan.specs.Functions.{function_of, name_of, helpers_of, is_number, shape_in, shape_of, next_operand, first_missing, takes, helper_word, helper_words, is_input_shape, input_key_in, input_key};
ghost use Rattle.expr_plan.specs.Given.{first_absent};
ghost use Rattle.expr_plan.specs.TableViews.{key_shape};

use crate::param::Params;
use crate::row::{FUNCTIONS, Function, Helpers, Inputs, Key, Shape};
use crate::table::row_of;

/// The function of a name.
pub(crate) fn function_of(name: &str) -> Option<Function>
    ensures { result ≡ function_of name.now }
{
    named_in(&FUNCTIONS, name)
}

// The first of some functions that has the name.
fn named_in(functions: &[Function], name: &str) -> Option<Function>
    ensures { result ≡ find (λ f. bytes_eq (name_of f) name.now) functions.now }
{
    for function in functions {
        if function.name() == name {
            return Some(*function);
        }
    }
    None
}

impl Function {
    /// Its name.
    pub(crate) fn name(self) -> &'static str
        ensures { result.now ≡ name_of self }
    {
        row_of(self).name
    }

    /// The calls among its arguments that are no inputs.
    pub(crate) fn helpers(self) -> Helpers
        ensures { result ≡ helpers_of self }
    {
        row_of(self).helpers
    }

    /// Whether it takes as many inputs.
    pub(crate) fn takes(self, inputs: u64) -> bool
        ensures { result ≡ takes self inputs }
    {
        is_number(row_of(self).inputs, inputs)
    }

    /// What the value under a key is to be; none where there is no such key.
    pub(crate) fn shape_of(self, key: &str) -> Option<Shape>
        ensures { result ≡ shape_of self key.now }
    {
        let row = row_of(self);
        shape_in(key, row.mandatory)
            .or(shape_in(key, row.optional))
            .or(row.others)
    }

    /// The key under which a call is an input, if there is one.
    pub(crate) fn input_key(self) -> Option<&'static str>
        ensures { option_map (λ key. key.now) result ≡ input_key self }
    {
        input_key_in(row_of(self).mandatory)
    }

    /// The operand that a plain argument is, behind the parameters that are given; none where all
    /// operands are.
    pub(crate) fn next_operand(self, params: &Params) -> Option<&'static str>
        ensures { option_map (λ name. name.now) result ≡ next_operand self params.now.items.items }
    {
        first_absent(row_of(self).operands, params)
    }

    /// The first parameter that has to be given and isn't.
    pub(crate) fn first_missing(self, params: &Params) -> Option<&'static str>
        ensures { option_map (λ name. name.now) result ≡ first_missing self params.now.items.items }
    {
        let row = row_of(self);
        let operand = first_absent(row.operands, params);
        let helper = absent_helper(row.helpers, params);
        let key = first_absent_key(row.mandatory, params);
        operand.or(helper).or(key)
    }
}

// Whether there are as many inputs.
fn is_number(inputs: Inputs, found: u64) -> bool
    ensures { result ≡ is_number inputs found }
{
    match inputs {
        Inputs::Exactly(n) => found == n,
        Inputs::AtLeast(n) => n <= found,
    }
}

// What the value under a key of these is to be.
fn shape_in(key: &str, keys: &[Key]) -> Option<Shape>
    ensures { result ≡ shape_in key.now (map key_shape keys.now) }
{
    for k in keys {
        if k.0 == key {
            return Some(k.1);
        }
    }
    None
}

// Whether what has this shape is an input.
fn is_input_shape(shape: Shape) -> bool
    ensures { result ≡ is_input_shape shape }
{
    match shape {
        Shape::Input => true,
        Shape::Literal
        | Shape::Anything
        | Shape::Names
        | Shape::FieldNames
        | Shape::Sort
        | Shape::Pairs
        | Shape::Query
        | Shape::KeptQuery
        | Shape::Number { .. }
        | Shape::Small { .. }
        | Shape::Id
        | Shape::Flag
        | Shape::True => false,
    }
}

// The first key of these under which a call is an input, if there is one.
fn input_key_in(keys: &'static [Key]) -> Option<&'static str>
    ensures { option_map (λ key. key.now) result ≡ input_key_in (map key_shape keys.now) }
{
    for k in keys {
        if is_input_shape(k.1) {
            return Some(k.0);
        }
    }
    None
}

// The first of some names that isn't given.
fn first_absent(names: &'static [&'static str], params: &Params) -> Option<&'static str>
    ensures { option_map (λ name. name.now) result
        ≡ first_absent (map (λ name. name.now) names.now) params.now.items.items }
{
    for name in names {
        if !params.has(name) {
            return Some(*name);
        }
    }
    None
}

// The first of some keys that isn't given.
fn first_absent_key(keys: &'static [Key], params: &Params) -> Option<&'static str>
    ensures { option_map (λ name. name.now) result
        ≡ first_absent (map (λ k. k.0) (map key_shape keys.now)) params.now.items.items }
{
    for key in keys {
        if !params.has(key.0) {
            return Some(key.0);
        }
    }
    None
}

/// What helpers are told as.
pub(crate) fn helper_word(helpers: Helpers) -> &'static str
    ensures { result.now ≡ helper_word helpers }
{
    match helpers {
        Helpers::Nothing => "",
        Helpers::Items => "item",
        Helpers::Condition => "condition",
        Helpers::Group => "group",
        Helpers::Metrics => "metric",
    }
}

// The helper that has to be given, where it isn't.
fn absent_helper(helpers: Helpers, params: &Params) -> Option<&'static str>
    ensures { option_map (λ name. name.now) result
        ≡ first_absent (helper_words helpers) params.now.items.items }
{
    match helpers {
        Helpers::Nothing => None,
        Helpers::Items | Helpers::Condition | Helpers::Group | Helpers::Metrics => {
            let word = helper_word(helpers);
            if params.has(word) { None } else { Some(word) }
        }
    }
}
