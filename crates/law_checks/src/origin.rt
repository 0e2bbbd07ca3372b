// Whether a delivered document is one of its source.
ghost use Rattle.std.specs.Prelude.{◌≡◌, Decides, Some, pos, option_map};
ghost use Rattle.std.specs.List.{AllByRecursion};
ghost use Rattle.tuple_values.specs.Document.{is_named, long, text};
ghost use Rattle.tuple_values.specs.Views.{datum_of};
ghost use Rattle.shard_versions.specs.Documents.{IsCarried, IsFrom, origin_names};

use shard_versions::id_of;
use tuple_values::{Tuple, Value, compare};

fn is_text(value: Option<&Value>, wanted: &str) -> bool
    ensures { Decides result
        (option_map (λ v. datum_of v.now) value.entry ≡ Some (text wanted.now)) }
{
    match value {
        Some(Value::Text(found)) => found.as_str() == wanted,
        Some(Value::Long(_) | Value::Group(_)) | None => false,
    }
}

fn is_version(value: Option<&Value>, version: u64) -> bool
    ensures { Decides result
        (option_map (λ v. datum_of v.now) value.entry ≡ Some (long (pos version))) }
{
    match value {
        Some(Value::Long(found)) => *found >= 0 && found.cast_unsigned() == version,
        Some(Value::Text(_) | Value::Group(_)) | None => false,
    }
}

fn is_same(found: Option<&Value>, value: &Value) -> bool
    ensures { Decides result
        (option_map (λ v. datum_of v.now) found.entry ≡ Some (datum_of value.now)) }
{
    compare(found, Some(value)).is_eq()
}

// Whether the name is one of those by which a delivery names where it comes from.
fn is_origin_name(name: &str) -> bool
    ensures { result ≡ is_named name.now origin_names }
{
    "_src_s" == name || "_src_version_l" == name
}

// Whether the field names the origin, or is one of the source's document.
fn is_carried(name: &str, value: &Value, source: &Tuple) -> bool
    ensures { Decides result (IsCarried source.now (name.now, datum_of value.now)) }
{
    is_origin_name(name) || "_version_" != name && is_same(source.get(name), value)
}

fn are_carried(delivered: &Tuple, source: &Tuple) -> bool
    ensures { Decides result (AllByRecursion (IsCarried source.now) delivered.now) }
{
    for k in 0..delivered.count() {
        if !is_carried(delivered.name(k).as_str(), delivered.value(k), source) {
            return false;
        }
    }
    true
}

/// Whether the delivered document is this one of the source, in this version.
#[tactic(auto, unfolding(shard_versions::specs::Documents::IsFrom))]
pub(crate) fn is_from(delivered: &Tuple, src: &str, version: u64, source: &Tuple) -> bool
    ensures { Decides result (IsFrom delivered.now src.now version source.now) }
{
    id_of(delivered) == id_of(source)
        && is_text(delivered.get("_src_s"), src)
        && is_version(delivered.get("_src_version_l"), version)
        && are_carried(delivered, source)
}
