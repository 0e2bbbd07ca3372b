// Bodies of updates.
ghost use Rattle.std.specs.Prelude.{◌≡◌, ◌≢◌, ◌<◌, length, IfOk, IfErr, Ok, Err, Some, None};
ghost use Rattle.serde_json.specs.View.{view, members_view};
ghost use Rattle.json_text.specs.Updates.{json_in, update_of, update_in, commands_of};

use crate::JsonFault;
use crate::flat::read_flat;
use crate::members::{are_commands, has, has_command, take};
use crate::writes::{push_added, push_deleted, push_put, push_puts};
use serde_json::{Map, Value as Json};
use std::alloc::Global;
use tuple_values::Writes;

/// What an update asks for: writes in the order in which they are carried out, and whether they
/// are committed.
#[derive(Drop)]
pub struct Update {
    pub writes: Writes,
    pub commit: bool,
}

/// The update that a body is, or its first fault (own rule, after the Solr Reference Guide,
/// "Indexing with Update Handlers").
pub fn read_update(alloc: Global, bytes: &[u8]) -> Result<Update, JsonFault>
    ensures ok { IfOk result (λ update. update_in bytes.now ≡ Ok update) }
    ensures err { IfErr result (λ fault. fault ≢ JsonFault.OutOfMemory
        → update_in bytes.now ≡ Err fault) }
{
    if bytes.is_empty() {
        return Ok(Update {
            writes: Writes::new(alloc),
            commit: false,
        });
    }
    match read_flat(alloc, bytes)? {
        Some(writes) => Ok(Update {
            writes,
            commit: false,
        }),
        None => read_value(alloc, bytes),
    }
}

// The same by way of the body's value.
fn read_value(alloc: Global, bytes: &[u8]) -> Result<Update, JsonFault>
    requires { 0 < length bytes.now }
    ensures ok { IfOk result (λ update. update_in bytes.now ≡ Ok update) }
    ensures err { IfErr result (λ fault. fault ≢ JsonFault.OutOfMemory
        → update_in bytes.now ≡ Err fault) }
{
    let json = parse(alloc, bytes)?;
    make_update(alloc, json)
}

fn parse(alloc: Global, bytes: &[u8]) -> Result<Json, JsonFault>
    ensures ok { IfOk result (λ json. json_in bytes.now ≡ Some (view json)) }
    ensures not_json { IfErr result (λ fault. fault ≢ JsonFault.OutOfMemory
        → json_in bytes.now ≡ None) }
    ensures err { IfErr result (λ fault. fault ≢ JsonFault.OutOfMemory
        → fault ≡ JsonFault.NotJson) }
{
    match Json::from_slice(alloc, bytes) {
        Ok(json) => Ok(json),
        Err(refused) => {
            if refused.is_memory() {
                Err(JsonFault::OutOfMemory)
            } else {
                Err(JsonFault::NotJson)
            }
        }
    }
}

// The update of a body's value, which is moved in.
fn make_update(alloc: Global, json: Json) -> Result<Update, JsonFault>
    ensures ok { IfOk result (λ update. update_of (view json) ≡ Ok update) }
    ensures err { IfErr result (λ fault. fault ≢ JsonFault.OutOfMemory
        → update_of (view json) ≡ Err fault) }
{
    let none = Writes::new(alloc);
    match json {
        Json::Array(documents) => {
            let writes = push_puts(alloc, none, documents)?;
            Ok(Update {
                writes,
                commit: false,
            })
        }
        Json::Object(members) => {
            if has(&members, "id") {
                let writes = push_put(alloc, none, 0, Json::Object(members))?;
                Ok(Update {
                    writes,
                    commit: false,
                })
            } else {
                carry_out(alloc, members)
            }
        }
        _ => Err(JsonFault::NotADocument { at: 0 }),
    }
}

// The update of an object of commands.
fn carry_out(alloc: Global, mut commands: Map<String, Json>) -> Result<Update, JsonFault>
    ensures ok { IfOk result (λ update.
        commands_of (members_view commands.entries) ≡ Ok update) }
    ensures err { IfErr result (λ fault. fault ≢ JsonFault.OutOfMemory
        → commands_of (members_view commands.entries) ≡ Err fault) }
{
    if !has_command(&commands) {
        return Err(JsonFault::NoId { at: 0 });
    }
    if !are_commands(&commands) {
        return Err(JsonFault::NotADocument { at: 0 });
    }
    let commit = has(&commands, "commit");
    let delete = take(&mut commands, "delete");
    let add = take(&mut commands, "add");
    let puts = push_added(alloc, Writes::new(alloc), add)?;
    let writes = push_deleted(alloc, puts, delete)?;
    Ok(Update { writes, commit })
}
