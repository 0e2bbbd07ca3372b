// Writes of updates, each list of them behind the writes that are there.
ghost use Rattle.std.specs.Prelude.{◌≡◌, ◌≢◌, ◌∷◌, [], IfOk, IfErr, Ok, Err, option_map};
ghost use Rattle.serde_json.specs.Data.{object};
ghost use Rattle.serde_json.specs.View.{view, items_view, members_view};
ghost use Rattle.json_text.specs.Writes.{put_of, del_of, id_of, each_from, each_of, adds, dels};
ghost use Rattle.json_text.specs.Writes.{added, deleted, behind, item_list};

use crate::JsonFault;
use crate::document::document;
use crate::members::{are_add_keys, take};
use serde_json::{Map, Value as Json};
use std::alloc::Global;
use tuple_values::{Memory, Text, Tuple, Write, Writes};

// Behind the writes, those of a list of documents.
pub(crate) fn push_puts(
    alloc: Global,
    mut writes: Writes,
    documents: Vec<Json>,
) -> Result<Writes, JsonFault>
    ensures ok { IfOk result (λ all.
        behind writes (each_from put_of 0 (item_list (items_view documents.items))) ≡ Ok all) }
    ensures err { IfErr result (λ fault. fault ≢ JsonFault.OutOfMemory
        → behind writes (each_from put_of 0 (item_list (items_view documents.items)))
        ≡ Err fault) }
{
    let mut at: u64 = 0;
    for json in documents {
        writes = push_put(alloc, writes, at, json)?;
        at += 1;
    }
    Ok(writes)
}

// Behind the writes, that of one document at its place in its list.
pub(crate) fn push_put(
    alloc: Global,
    mut writes: Writes,
    at: u64,
    json: Json,
) -> Result<Writes, JsonFault>
    ensures ok { IfOk result (λ all.
        behind writes (each_from put_of at (view json ∷ [])) ≡ Ok all) }
    ensures err { IfErr result (λ fault. fault ≢ JsonFault.OutOfMemory
        → behind writes (each_from put_of at (view json ∷ [])) ≡ Err fault) }
{
    let put = Write::Put(document(alloc, at, json, last_document(writes.as_slice()))?);
    writes.push(put)?;
    Ok(writes)
}

// The document that is put last, where it stands last.
pub(crate) fn last_document(writes: &[Write]) -> Option<&Tuple> {
    match writes {
        [.., Write::Put(document)] => Some(document),
        _ => None,
    }
}

// Behind the writes, those of the command `add`, if it is given.
pub(crate) fn push_added(
    alloc: Global,
    writes: Writes,
    add: Option<Json>,
) -> Result<Writes, JsonFault>
    ensures ok { IfOk result (λ all. behind writes (adds (option_map view add)) ≡ Ok all) }
    ensures err { IfErr result (λ fault. fault ≢ JsonFault.OutOfMemory
        → behind writes (adds (option_map view add)) ≡ Err fault) }
{
    let Some(add) = add else {
        return Ok(writes);
    };
    match added(add) {
        Some(json) => push_put(alloc, writes, 0, json),
        None => Err(JsonFault::NotADocument { at: 0 }),
    }
}

fn added(add: Json) -> Option<Json>
    ensures { option_map (λ json. view json ∷ []) result ≡ added (view add) }
{
    match add {
        Json::Object(mut members) => {
            if are_add_keys(&members) {
                take(&mut members, "doc")
            } else {
                None
            }
        }
        _ => None,
    }
}

// Behind the writes, those of the command `delete`, if it is given.
pub(crate) fn push_deleted(
    alloc: Global,
    writes: Writes,
    delete: Option<Json>,
) -> Result<Writes, JsonFault>
    ensures ok { IfOk result (λ all. behind writes (dels (option_map view delete)) ≡ Ok all) }
    ensures err { IfErr result (λ fault. fault ≢ JsonFault.OutOfMemory
        → behind writes (dels (option_map view delete)) ≡ Err fault) }
{
    let Some(delete) = delete else {
        return Ok(writes);
    };
    match delete {
        Json::Array(ids) => push_dels(alloc, writes, ids),
        Json::Object(members) => push_sole_del(alloc, writes, members),
        json => push_del(alloc, writes, 0, json),
    }
}

// Behind the writes, the deletion of the one member `id`.
fn push_sole_del(
    alloc: Global,
    writes: Writes,
    members: Map<String, Json>,
) -> Result<Writes, JsonFault>
    ensures ok { IfOk result (λ all. behind writes
        (each_of del_of (deleted (object (members_view members.entries)))) ≡ Ok all) }
    ensures err { IfErr result (λ fault. fault ≢ JsonFault.OutOfMemory → behind writes
        (each_of del_of (deleted (object (members_view members.entries)))) ≡ Err fault) }
{
    match sole_id(members) {
        Some(json) => push_del(alloc, writes, 0, json),
        None => Err(JsonFault::NotADocument { at: 0 }),
    }
}

fn sole_id(mut members: Map<String, Json>) -> Option<Json>
    ensures { option_map (λ json. view json ∷ []) result
        ≡ deleted (object (members_view members.entries)) }
{
    if members.len() == 1 {
        take(&mut members, "id")
    } else {
        None
    }
}

// Behind the writes, those of a list of ids.
fn push_dels(alloc: Global, mut writes: Writes, ids: Vec<Json>) -> Result<Writes, JsonFault>
    ensures ok { IfOk result (λ all.
        behind writes (each_from del_of 0 (item_list (items_view ids.items))) ≡ Ok all) }
    ensures err { IfErr result (λ fault. fault ≢ JsonFault.OutOfMemory
        → behind writes (each_from del_of 0 (item_list (items_view ids.items))) ≡ Err fault) }
{
    let mut at: u64 = 0;
    for json in ids {
        writes = push_del(alloc, writes, at, json)?;
        at += 1;
    }
    Ok(writes)
}

// Behind the writes, the deletion of one id at its place in its list.
fn push_del(alloc: Global, mut writes: Writes, at: u64, json: Json) -> Result<Writes, JsonFault>
    ensures ok { IfOk result (λ all.
        behind writes (each_from del_of at (view json ∷ [])) ≡ Ok all) }
    ensures err { IfErr result (λ fault. fault ≢ JsonFault.OutOfMemory
        → behind writes (each_from del_of at (view json ∷ [])) ≡ Err fault) }
{
    match id(alloc, json)? {
        Some(id) => {
            writes.push(Write::Del(id))?;
            Ok(writes)
        }
        None => Err(JsonFault::NotADocument { at }),
    }
}

// The id that a value is, if it is one.
fn id(alloc: Global, json: Json) -> Result<Option<Text>, Memory>
    ensures { IfOk result (λ id. id ≡ id_of (view json)) }
{
    match json {
        Json::String(text) => Ok(Some(Text::from_string(text))),
        Json::Number(number) => match number.as_i64() {
            Some(n) => {
                let digits = format!(in alloc; "{n}")?;
                Ok(Some(Text::from_string(digits)))
            }
            None => Ok(None),
        },
        Json::Null | Json::Bool(_) | Json::Array(_) | Json::Object(_) => Ok(None),
    }
}
