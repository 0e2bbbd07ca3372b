// Members of JSON objects, by their names.
ghost use Rattle.std.specs.Prelude.{◌≡◌, bytes_eq, false, is_some, option_map};
ghost use Rattle.std.specs.List.{list_all};
ghost use Rattle.serde_json.specs.Find.{get_member};
ghost use Rattle.serde_json.specs.View.{view, members_view};
ghost use Rattle.json_text.specs.Documents.{member_list};
ghost use Rattle.json_text.specs.Writes.{is_add_key};
ghost use Rattle.json_text.specs.Updates.{has_command, is_command};

use serde_json::{Map, Value as Json};

// Whether there is a member of the name.
pub(crate) fn has(members: &Map<String, Json>, name: &str) -> bool
    ensures { result ≡ is_some (get_member name.now (members_view members.now.entries)) }
{
    members.contains_key(name)
}

// Takes the named member out.
pub(crate) fn take(members: &mut Map<String, Json>, name: &str) -> Option<Json>
    ensures value { option_map view result
        ≡ get_member name.now (members_view members.old.entries) }
    ensures others { (other : _) → bytes_eq other name.now ≡ false
        → get_member other (members_view members.new.entries)
        ≡ get_member other (members_view members.old.entries) }
{
    members.remove(name)
}

// Whether a command is given.
pub(crate) fn has_command(members: &Map<String, Json>) -> bool
    ensures { result ≡ has_command (members_view members.now.entries) }
{
    has(members, "add") || has(members, "delete") || has(members, "commit")
}

// Whether each member has the name of a command.
pub(crate) fn are_commands(members: &Map<String, Json>) -> bool
    ensures { result
        ≡ list_all (λ m. is_command m.0) (member_list (members_view members.now.entries)) }
{
    for (name, _) in members {
        if !is_command(name.as_str()) {
            return false;
        }
    }
    true
}

// Whether each member has a name that stands in the command `add`.
pub(crate) fn are_add_keys(members: &Map<String, Json>) -> bool
    ensures { result
        ≡ list_all (λ m. is_add_key m.0) (member_list (members_view members.now.entries)) }
{
    for (name, _) in members {
        if !is_add_key(name.as_str()) {
            return false;
        }
    }
    true
}

fn is_command(name: &str) -> bool
    ensures { result ≡ is_command name.now }
{
    name == "add" || name == "delete" || name == "commit"
}

fn is_add_key(name: &str) -> bool
    ensures { result ≡ is_add_key name.now }
{
    name == "doc" || name == "commitWithin"
}
