// The value under a key, read as what it is to be.
ghost use Rattle.std.specs.Prelude.{◌≡◌, IfOk, MatchResult, Ok, Err, length};
ghost use Rattle.tuple_values.specs.Whole.{whole_of};
ghost use Rattle.query_syntax.specs.Reading.{read_of};
ghost use Rattle.sort_spec.specs.Reading.{sort_of, on_of, names_of};
ghost use Rattle.expr_plan.specs.Functions.{name_of};
ghost use Rattle.expr_plan.specs.Fault.{IsFaultOf};
ghost use Rattle.expr_types.specs.Limits.{id_limit, is_between};
ghost use Rattle.expr_plan.specs.Literals.{within, flag_of};
ghost use Rattle.expr_plan.specs.Shapes.{number_param, small_param, names_param, fields_param, sort_param, pairs_param, query_param, kept_param, id_param, flag_param, true_param, read_as};
ghost use Rattle.expr_plan.specs.declared.fault.PlanFault.TheVariants.{BadParam};

use crate::PlanFault;
use crate::literals::{flag_of, literal, within, within_small};
use crate::param::Param;
use crate::row::{Function, Shape};
use expr_reader::Word;
use query_syntax::{QueryFault, read_query};
use sort_spec::{SortFault, read_names, read_on, read_sort};
use std::alloc::Global;
use tuple_values::{Memory, Text, TryCopy, whole};

// The greatest number of bytes in the name of a topic or of a daemon.
const ID_LIMIT: usize = 128;

/// The fault of a parameter.
pub(crate) fn bad(alloc: Global, function: Function, name: &str) -> Result<PlanFault, Memory>
    ensures { IfOk result (λ fault. fault ≡ BadParam (name_of function) name.now) }
{
    let function = Text::of(alloc, function.name())?;
    let name = Text::of(alloc, name)?;
    Ok(PlanFault::BadParam { function, name })
}

fn read_number(
    alloc: Global,
    function: Function,
    key: &str,
    number: Option<u64>,
) -> Result<Param, PlanFault>
    ensures { MatchResult result (λ p. number_param function key.now number ≡ Ok p)
        (IsFaultOf (number_param function key.now number)) }
{
    match number {
        Some(n) => Ok(Param::Number(n)),
        None => Err(bad(alloc, function, key)?),
    }
}

fn read_small(
    alloc: Global,
    function: Function,
    key: &str,
    number: Option<u16>,
) -> Result<Param, PlanFault>
    ensures { MatchResult result (λ p. small_param function key.now number ≡ Ok p)
        (IsFaultOf (small_param function key.now number)) }
{
    match number {
        Some(n) => Ok(Param::Small(n)),
        None => Err(bad(alloc, function, key)?),
    }
}

// Whether a text is as long as the name of a topic or of a daemon may be.
fn is_id(text: &str) -> bool
    ensures { result ≡ is_between 1 id_limit (length text.now) }
{
    1 <= text.len() && text.len() <= ID_LIMIT
}

fn read_id(alloc: Global, function: Function, key: &str, text: &Text) -> Result<Param, PlanFault>
    ensures { MatchResult result (λ p. id_param function key.now text.now ≡ Ok p)
        (IsFaultOf (id_param function key.now text.now)) }
{
    if is_id(text.as_str()) {
        Ok(Param::Plain(text.copy(alloc)?))
    } else {
        Err(bad(alloc, function, key)?)
    }
}

fn read_flag(
    alloc: Global,
    function: Function,
    key: &str,
    flag: Option<bool>,
) -> Result<Param, PlanFault>
    ensures { MatchResult result (λ p. flag_param function key.now flag ≡ Ok p)
        (IsFaultOf (flag_param function key.now flag)) }
{
    match flag {
        Some(flag) => Ok(Param::Flag(flag)),
        None => Err(bad(alloc, function, key)?),
    }
}

fn read_true(alloc: Global, function: Function, key: &str, text: &str) -> Result<Param, PlanFault>
    ensures { MatchResult result (λ p. true_param function key.now text.now ≡ Ok p)
        (IsFaultOf (true_param function key.now text.now)) }
{
    if text == "true" {
        Ok(Param::Nothing)
    } else {
        Err(bad(alloc, function, key)?)
    }
}

fn read_name_list(
    alloc: Global,
    function: Function,
    key: &str,
    text: &str,
) -> Result<Param, PlanFault>
    ensures { MatchResult result (λ p. names_param function key.now (names_of text.now) ≡ Ok p)
        (IsFaultOf (names_param function key.now (names_of text.now))) }
{
    match read_names(alloc, text) {
        Ok(names) => Ok(Param::Names(names)),
        Err(SortFault::BadSort { .. }) => Err(bad(alloc, function, key)?),
        Err(SortFault::OutOfMemory) => Err(PlanFault::OutOfMemory),
    }
}

fn read_field_list(
    alloc: Global,
    function: Function,
    key: &str,
    text: &str,
) -> Result<Param, PlanFault>
    ensures { MatchResult result (λ p. fields_param function key.now (names_of text.now) ≡ Ok p)
        (IsFaultOf (fields_param function key.now (names_of text.now))) }
{
    match read_names(alloc, text) {
        Ok(names) if names.contains("*") => Err(bad(alloc, function, key)?),
        Ok(names) => Ok(Param::Names(names)),
        Err(SortFault::BadSort { .. }) => Err(bad(alloc, function, key)?),
        Err(SortFault::OutOfMemory) => Err(PlanFault::OutOfMemory),
    }
}

fn read_sort_text(alloc: Global, text: &str) -> Result<Param, PlanFault>
    ensures { MatchResult result (λ p. sort_param (sort_of text.now) ≡ Ok p)
        (IsFaultOf (sort_param (sort_of text.now))) }
{
    match read_sort(alloc, text) {
        Ok(sort) => Ok(Param::Sort(sort)),
        Err(SortFault::BadSort { at }) => Err(PlanFault::BadSort { at }),
        Err(SortFault::OutOfMemory) => Err(PlanFault::OutOfMemory),
    }
}

fn read_pairs_text(alloc: Global, text: &str) -> Result<Param, PlanFault>
    ensures { MatchResult result (λ p. pairs_param (on_of text.now) ≡ Ok p)
        (IsFaultOf (pairs_param (on_of text.now))) }
{
    match read_on(alloc, text) {
        Ok(pairs) => Ok(Param::Pairs(pairs)),
        Err(SortFault::BadSort { at }) => Err(PlanFault::BadSort { at }),
        Err(SortFault::OutOfMemory) => Err(PlanFault::OutOfMemory),
    }
}

fn read_query_text(alloc: Global, text: &str) -> Result<Param, PlanFault>
    ensures { MatchResult result (λ p. query_param (read_of text.now) ≡ Ok p)
        (IsFaultOf (query_param (read_of text.now))) }
{
    match read_query(alloc, text) {
        Ok(query) => Ok(Param::Query(query)),
        Err(QueryFault::BadQuery { at }) => Err(PlanFault::BadQuery { at }),
        Err(QueryFault::OutOfMemory) => Err(PlanFault::OutOfMemory),
    }
}

fn read_kept_query(alloc: Global, text: &Text) -> Result<Param, PlanFault>
    ensures { MatchResult result (λ p. kept_param text.now (read_of text.now) ≡ Ok p)
        (IsFaultOf (kept_param text.now (read_of text.now))) }
{
    match read_query(alloc, text.as_str()) {
        Ok(query) => Ok(Param::KeptQuery(query, text.copy(alloc)?)),
        Err(QueryFault::BadQuery { at }) => Err(PlanFault::BadQuery { at }),
        Err(QueryFault::OutOfMemory) => Err(PlanFault::OutOfMemory),
    }
}

/// Reads a word under a key of the function.
pub(crate) fn read_as(
    alloc: Global,
    shape: Shape,
    function: Function,
    key: &str,
    word: &Word,
) -> Result<Param, PlanFault>
    ensures { MatchResult result
        (λ p. read_as shape function key.now word.now.text word.now.quoted ≡ Ok p)
        (IsFaultOf (read_as shape function key.now word.now.text word.now.quoted)) }
{
    let text = word.text.as_str();
    match shape {
        Shape::Literal => Ok(Param::Literal(literal(alloc, word)?)),
        Shape::Anything => Ok(Param::Nothing),
        Shape::Names => read_name_list(alloc, function, key, text),
        Shape::FieldNames => read_field_list(alloc, function, key, text),
        Shape::Sort => read_sort_text(alloc, text),
        Shape::Pairs => read_pairs_text(alloc, text),
        Shape::Query => read_query_text(alloc, text),
        Shape::KeptQuery => read_kept_query(alloc, &word.text),
        Shape::Number { low, high } => {
            read_number(alloc, function, key, within(low, high, whole(text)))
        }
        Shape::Small { low, high } => {
            read_small(alloc, function, key, within_small(low, high, whole(text)))
        }
        Shape::Id => read_id(alloc, function, key, &word.text),
        Shape::Flag => read_flag(alloc, function, key, flag_of(text)),
        Shape::True => read_true(alloc, function, key, text),
        Shape::Input => Err(bad(alloc, function, key)?),
    }
}
