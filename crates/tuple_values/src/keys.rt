// Keys, hashes and the routing of ids.
ghost use Rattle.std.specs.Prelude.{◌≡◌, ◌++◌, ◌<◌, List, IfOk, OnOk, map, option_map};
ghost use Rattle.tuple_values.specs.Document.{ByteList, Doc, value_at};
ghost use Rattle.tuple_values.specs.Keys.{key_part, key_text, hash_of, shard_of};
ghost use Rattle.tuple_values.specs.Views.{datum_of};

use crate::{Bytes, FieldList, Memory, Tuple, Value};
use std::alloc::Global;

/// The key of a tuple for some fields: a part for each field, in order (own rule).
pub fn key_text(alloc: Global, tuple: &Tuple, fields: &FieldList) -> Result<Bytes, Memory>
    ensures { IfOk result (λ bytes. bytes ≡ key_text tuple.now fields.now) }
{
    let mut out = Vec::new(alloc);
    for name in fields.as_slice() {
        push_part(&mut out, tuple.get(name.as_str()))?;
    }
    Ok(Bytes::from_vec(out))
}

fn push_part(out: &mut Vec<u8>, value: Option<&Value>) -> Result<(), Memory>
    ensures { OnOk result
        (out.new.items ≡ out.old.items ++ key_part (option_map (λ v. datum_of v.now) value.entry)) }
{
    match value {
        None => out.push(0)?,
        Some(Value::Long(n)) => {
            out.push(1)?;
            out.extend_from_slice(&n.cast_unsigned().to_be_bytes())?;
        }
        Some(Value::Text(text)) => {
            let bytes = text.as_str().as_bytes();
            out.push(2)?;
            out.extend_from_slice(&((bytes.len() % 0x1_0000_0000) as u32).to_be_bytes())?;
            out.extend_from_slice(bytes)?;
        }
        Some(Value::Group(_)) => out.push(3)?,
    }
    Ok(())
}

/// Fields with equal values, where two absent ones are equal, give equal keys. Nothing follows from
/// equal keys: all groups have one, and the length of a text stands in it modulo 2^32.
pub fn equal_values_give_equal_keys()
    ensures { (left right : Doc) (lefts rights : List ByteList)
        → map (λ name. value_at name left) lefts ≡ map (λ name. value_at name right) rights
        → key_text left lefts ≡ key_text right rights }
{}

/// The 32-bit FNV-1a hash of some bytes (Fowler, Noll and Vo).
pub fn fnv1a(bytes: &[u8]) -> u32
    ensures { result ≡ hash_of bytes.now }
{
    let mut hash: u32 = 2166136261;
    for byte in bytes {
        hash = (hash ^ u32::from(*byte)).wrapping_mul(16777619);
    }
    hash
}

/// The shard of so many, counted from 0, that holds the document with this id (own rule).
pub fn shard_of(id: &str, shards: u16) -> u16
    requires { 0 < shards }
    ensures { result ≡ shard_of shards id.now }
{
    (fnv1a(id.as_bytes()) % u32::from(shards)) as u16
}
