// What a left tuple gives.
ghost use Rattle.std.specs.Prelude.{◌≡◌, ◌<◌, ◌++◌, List, [], None, length, filter, drop};
ghost use Rattle.std.specs.Prelude.{IfOk, IfSome, IfNone, option_to_list};
ghost use Rattle.expr_types.specs.Joins.{matches, alone_of};
ghost use Rattle.sort_spec.specs.declared.pair.OnPair.{OnPair};
ghost use Rattle.hash_join.specs.Buckets.{bucket_of};
ghost use Rattle.hash_join.specs.Held.{given_of, equals_from, held_list};
ghost use Rattle.hash_join.specs.JoinKeys.{left_key};
ghost use Rattle.hash_join.specs.declared.table.Table as buckets;

use crate::key_pairs::KeyPairs;
use crate::table::Table;
use expr_types::joined;
use std::alloc::Global;
use std::mem;
use tuple_values::{Memory, Tuple};

/// What is still to be given of the left tuple that came last.
#[derive(Drop)]
pub(crate) enum Held {
    Nothing,
    /// The tuple itself, which has no equal.
    Alone(Tuple),
    /// The tuple over its equals from a place in a bucket on, at which one stands.
    Paired {
        left: Tuple,
        bucket: usize,
        place: usize,
    },
}

/// What a left tuple gives. It looks its key up once, and goes to the first of its equals.
pub(crate) fn hold(
    alloc: Global,
    outer: bool,
    on: &KeyPairs,
    table: &Table,
    left: Tuple,
) -> Result<Held, Memory>
    ensures { IfOk result (λ held. held_list on.now table.now held
        ≡ given_of outer on.now left (bucket_of table.now (left_key on.now left))) }
{
    let key = on.left_key(alloc, &left)?;
    let Some(bucket) = table.find(key.as_slice()) else {
        return Ok(alone(outer, left));
    };
    let Some(place) = next_equal(on, &left, table.bucket(bucket), 0) else {
        return Ok(alone(outer, left));
    };
    Ok(Held::Paired {
        left,
        bucket,
        place,
    })
}

// What a left tuple without an equal gives.
fn alone(outer: bool, left: Tuple) -> Held
    ensures { (on : List OnPair) (table : buckets.Table)
        → held_list on table result ≡ alone_of outer left }
{
    if outer {
        Held::Alone(left)
    } else {
        Held::Nothing
    }
}

// The place of the first equal from a place on.
fn next_equal(on: &KeyPairs, left: &Tuple, rights: &[Tuple], from: usize) -> Option<usize>
    ensures equals { filter (matches on.now left.now) (drop from rights.now)
        ≡ equals_from on.now left.now rights.now result }
    ensures within { IfSome result (λ place. place < length rights.now) }
{
    for place in from..rights.len() {
        if on.are_equal(left, &rights[place]) {
            return Some(place);
        }
    }
    None
}

/// The next of what is held, if there is one. The last pair is made of the left tuple itself.
pub(crate) fn give(
    alloc: Global,
    on: &KeyPairs,
    table: &Table,
    held: &mut Held,
) -> Result<Option<Tuple>, Memory>
    ensures given { IfOk result (λ next. held_list on.now table.now held.old
        ≡ option_to_list next ++ held_list on.now table.now held.new) }
    ensures none { IfOk result (λ next. IfNone next (held.new ≡ Held.Nothing)) }
    ensures nothing { held.old ≡ Held.Nothing → result ≡ Ok None }
{
    match mem::replace(held, Held::Nothing) {
        Held::Nothing => Ok(None),
        Held::Alone(left) => Ok(Some(left)),
        Held::Paired {
            left,
            bucket,
            place,
        } => {
            let rights = table.bucket(bucket);
            let Some(right) = rights.get(place) else {
                return Ok(None);
            };
            let Some(next) = next_equal(on, &left, rights, place + 1) else {
                return Ok(Some(joined(alloc, left, right)?));
            };
            let pair = joined(alloc, left.copy(alloc)?, right)?;
            *held = Held::Paired {
                left,
                bucket,
                place: next,
            };
            Ok(Some(pair))
        }
    }
}
