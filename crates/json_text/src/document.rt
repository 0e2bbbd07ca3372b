// Documents of updates.
ghost use Rattle.std.specs.Prelude.{◌≡◌, ◌≢◌, [], ◌∷◌, codes, IsTrue, IfOk, IfErr, OnOk};
ghost use Rattle.std.specs.Prelude.{option_map, string_bytes, Ok, Err, Some, None, false, find};
ghost use Rattle.std.specs.Option.{option_map_or};
ghost use Rattle.serde_json.specs.View.{view, members_view};
ghost use Rattle.tuple_values.specs.Document.{over, value_at};
ghost use Rattle.tuple_values.specs.Views.{datum_of};
ghost use Rattle.json_text.specs.Documents.{member_list, is_reserved, plain_value, field_value};
ghost use Rattle.json_text.specs.Documents.{is_unfit, field_of, fields_in, is_id, allowed};
ghost use Rattle.json_text.specs.Documents.{document_of};

use crate::JsonFault;
use serde_json::{Map, Value as Json};
use std::alloc::Global;
use tuple_values::{Memory, Text, Tuple, Value, coerce};

// The greatest size of a document, in counted bytes.
const LARGEST: u64 = 1_048_576;

// The document that a value is, at its place in its list. The texts are moved in; the names that the
// other document has are shared with it.
pub(crate) fn document(
    alloc: Global,
    at: u64,
    json: Json,
    other: Option<&Tuple>,
) -> Result<Tuple, JsonFault>
    ensures ok { IfOk result (λ doc. document_of at (view json) ≡ Ok doc) }
    ensures err { IfErr result (λ fault. fault ≢ JsonFault.OutOfMemory
        → document_of at (view json) ≡ Err fault) }
{
    match json {
        Json::Object(members) => {
            let doc = fields(alloc, at, members, other)?;
            allow(at, doc)
        }
        _ => Err(JsonFault::NotADocument { at }),
    }
}

// The document of an object's members, unless one of them has no value.
fn fields(
    alloc: Global,
    at: u64,
    members: Map<String, Json>,
    other: Option<&Tuple>,
) -> Result<Tuple, JsonFault>
    ensures fit { OnOk result
        (find is_unfit (member_list (members_view members.entries)) ≡ None) }
    ensures ok { IfOk result (λ doc. doc ≡ fields_in (member_list (members_view members.entries))) }
    ensures err { IfErr result (λ fault. fault ≢ JsonFault.OutOfMemory
        → option_map (λ m. JsonFault.NotWhole at m.0)
        (find is_unfit (member_list (members_view members.entries))) ≡ Some fault) }
{
    let mut doc = Tuple::empty(alloc);
    doc.make_room(members.len() as u64)?;
    for (name, json) in members {
        put_member(alloc, at, &mut doc, name, json, other)?;
    }
    Ok(doc)
}

// Puts the field that a member becomes, if it becomes one.
fn put_member(
    alloc: Global,
    at: u64,
    doc: &mut Tuple,
    name: String,
    json: Json,
    other: Option<&Tuple>,
) -> Result<(), JsonFault>
    ensures fit { OnOk result (is_unfit (string_bytes name, view json) ≡ false) }
    ensures ok { OnOk result (doc.new ≡ option_map_or (λ f. over doc.old (f ∷ []))
        (field_of (string_bytes name, view json)) doc.old) }
    ensures unfit { IfErr result (λ fault. fault ≢ JsonFault.OutOfMemory
        → IsTrue (is_unfit (string_bytes name, view json))) }
    ensures err { IfErr result (λ fault. fault ≢ JsonFault.OutOfMemory
        → fault ≡ JsonFault.NotWhole at (string_bytes name)) }
{
    if is_reserved(name.as_str()) || json.is_null() {
        return Ok(());
    }
    match value_of(alloc, name.as_str(), json)? {
        Some(value) => {
            doc.put_like(other, name.as_str(), value)?;
            Ok(())
        }
        None => Err(JsonFault::NotWhole {
            at,
            field: Text::from_string(name),
        }),
    }
}

pub(crate) fn is_reserved(name: &str) -> bool
    ensures { result ≡ is_reserved name.now }
{
    name == "_version_" || name == "_src_s" || name == "_src_version_l"
}

// The value of a member in the kind of its name, if it has one.
fn value_of(alloc: Global, name: &str, json: Json) -> Result<Option<Value>, Memory>
    ensures { IfOk result (λ v. option_map datum_of v ≡ field_value (name.now, view json)) }
{
    match plain(alloc, json)? {
        Some(value) => coerce(alloc, name, value),
        None => Ok(None),
    }
}

fn plain(alloc: Global, json: Json) -> Result<Option<Value>, Memory>
    ensures { IfOk result (λ v. option_map datum_of v ≡ plain_value (view json)) }
{
    match json {
        Json::String(text) => Ok(Some(Value::Text(Text::from_string(text).shared()?))),
        Json::Number(number) => Ok(number.as_i64().map(Value::Long)),
        Json::Bool(true) => Ok(Some(Value::Text(Text::of(alloc, "true")?))),
        Json::Bool(false) => Ok(Some(Value::Text(Text::of(alloc, "false")?))),
        Json::Null | Json::Array(_) | Json::Object(_) => Ok(None),
    }
}

// The document, if it has an id and isn't too large.
pub(crate) fn allow(at: u64, doc: Tuple) -> Result<Tuple, JsonFault>
    ensures { result ≡ allowed at doc }
{
    if !has_id(&doc) {
        return Err(JsonFault::NoId { at });
    }
    if doc.size() > LARGEST {
        return Err(JsonFault::DocTooLarge { at });
    }
    Ok(doc)
}

fn has_id(doc: &Tuple) -> bool
    ensures { result ≡ is_id (value_at (codes "id") doc.now) }
{
    match doc.get("id") {
        Some(Value::Text(id)) => !id.as_str().is_empty(),
        _ => false,
    }
}
