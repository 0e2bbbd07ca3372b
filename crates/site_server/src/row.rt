// The items of a server, made of its passes and of the doors of a row, and both again of its items.
ghost use Rattle.std.specs.Prelude.{◌≡◌, ◌≤◌, ◌<◌, ◌+◌, ◌++◌, [], map, option_to_list, vec_capacity, vec_len};
ghost use Rattle.std.specs.List.{list_any};
ghost use Rattle.site_server.specs.Rows.{behind, doors_in, failed_in, first_of, items_for, pass_in};
ghost use Rattle.site_server.specs.Rows.{rest_of};

use crate::item::ItemOf;

// The first door of a row, while a worker is to be made and a door is there.
fn next_door<L: Drop>(row: &mut Vec<L>, workers: &mut u64) -> Option<L>
    ensures door { result ≡ first_of workers.old row.old.items }
    ensures rest { (workers.new, row.new.items) ≡ rest_of workers.old row.old.items }
    ensures len { vec_len row.new ≤ vec_len row.old }
{
    if *workers == 0 || row.is_empty() {
        return None;
    }
    *workers -= 1;
    Some(row.remove(0))
}

/// An item for each pass, of which so many first ones have the first doors of the row.
pub(crate) fn add_items<L: Drop, P: Drop>(
    items: &mut Vec<ItemOf<L, P>>,
    passes: Vec<P>,
    row: &mut Vec<L>,
    workers: u64,
)
    requires empty { items.old.items ≡ [] }
    requires room { vec_len passes ≤ vec_capacity items.old }
    ensures items { items.new.items ≡ items_for workers row.old.items passes.items }
    ensures row { row.new.items ≡ (behind workers row.old.items passes.items).1 }
    ensures len { vec_len items.new ≡ vec_len passes }
    ensures left { vec_len row.new ≤ vec_len row.old }
{
    let mut left = workers;
    for pass in passes {
        let door = next_door(row, &mut left);
        items.push_reserved(ItemOf {
            door,
            pass,
            run: None,
        });
    }
}

// Puts a door, where there is one, behind the others.
fn keep<L: Drop>(doors: &mut Vec<L>, door: Option<L>)
    requires { vec_len doors.old < vec_capacity doors.old }
    ensures items { doors.new.items ≡ doors.old.items ++ option_to_list door }
    ensures len { vec_len doors.new ≤ vec_len doors.old + 1 }
    ensures capacity { vec_capacity doors.new ≡ vec_capacity doors.old }
{
    if let Some(door) = door {
        doors.push_reserved(door);
    }
}

// Whether the door of an item failed.
fn has_failed<L, P>(item: &ItemOf<L, P>) -> bool
    ensures { result ≡ failed_in item.now }
{
    match &item.run {
        Some(run) => item.door.is_some() && run.failed,
        None => false,
    }
}

/// The doors of the items and their passes, behind others. Answers whether a door failed.
pub(crate) fn part_items<L: Drop, P: Drop>(
    items: Vec<ItemOf<L, P>>,
    doors: &mut Vec<L>,
    passes: &mut Vec<P>,
) -> bool
    requires doors { vec_len doors.old + vec_len items ≤ vec_capacity doors.old }
    requires passes { vec_len passes.old + vec_len items ≤ vec_capacity passes.old }
    ensures doors { doors.new.items ≡ doors.old.items ++ doors_in items.items }
    ensures passes { passes.new.items ≡ passes.old.items ++ map pass_in items.items }
    ensures failed { result ≡ list_any failed_in items.items }
    ensures capacity { vec_capacity doors.new ≡ vec_capacity doors.old }
    ensures len { vec_len doors.new ≤ vec_len doors.old + vec_len items }
{
    let mut failed = false;
    for item in items {
        failed = failed || has_failed(&item);
        let ItemOf { door, pass, run: _ } = item;
        keep(doors, door);
        passes.push_reserved(pass);
    }
    failed
}

/// Puts the doors that are left behind the others.
pub(crate) fn put_behind<L: Drop>(doors: &mut Vec<L>, left: &mut Vec<L>)
    requires { vec_len doors.old + vec_len left.old ≤ vec_capacity doors.old }
    ensures { doors.new.items ≡ doors.old.items ++ left.old.items }
{
    let Ok(()) = doors.append(left) else {
        unreachable!()
    };
}
