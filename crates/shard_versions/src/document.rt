// Documents as a shard holds them.
ghost use Rattle.std.specs.Prelude.{◌≡◌, ◌+◌, ◌<◌, ◌^◌, IfOk};
ghost use Rattle.shard_versions.specs.Documents.{id_of, with_version};

use std::alloc::Global;
use tuple_values::{Memory, Tuple, Value};

/// The document's id, and the empty text where it has none.
#[tactic(auto, unfolding(crate::specs::Documents::id_of))]
pub fn id_of(document: &Tuple) -> &str
    ensures { result.now ≡ id_of document.now }
{
    match document.get("id") {
        Some(Value::Text(id)) => id.as_str(),
        _ => "",
    }
}

/// A copy of the document as it is read in this version. The name of that field is shared with the
/// other document where that has it.
#[tactic(auto, unfolding(crate::specs::Documents::with_version))]
pub(crate) fn with_version(
    alloc: Global,
    document: &Tuple,
    version: u64,
    other: Option<&Tuple>,
) -> Result<Tuple, Memory>
    requires { version < 2 ^ 63 }
    ensures { IfOk result (λ tuple. tuple ≡ with_version version document.now) }
{
    let mut tuple = document.copy(alloc)?;
    tuple.make_room(1)?;
    tuple.put_like(other, "_version_", Value::Long(version as i64))?;
    Ok(tuple)
}
