// The topic of a load, and the collections that it is about.
ghost use Rattle.std.specs.Prelude.{◌≡◌, IfOk};
ghost use Rattle.expr_check.specs.Views.{tree_of};
ghost use Rattle.load_rules.specs.Topic.{load_names};
ghost use Rattle.load_mix.specs.Topic.{load_tree};

use expr_check::{Checked, Roots};
use expr_text::{TextFault, read_checked};
use std::alloc::Global;
use tuple_values::{Memory, NameShards, Names, Text};

/// The text of the topic, with the update of its destination.
pub(crate) const UPDATE: &[u8] = b"update(dest,topic(ck,src,id=\"load\",q=\"a_i:[0 TO 499]\",\
fl=\"id,a_i,rev_i\",initialCheckpoint=0))";

/// The collections of a load.
pub(crate) fn collections(alloc: Global) -> Result<Names, Memory>
    ensures { IfOk result (λ names. names ≡ load_names) }
{
    let mut names = Names::new(alloc);
    let name = Text::of(alloc, "src")?;
    names.push(NameShards { name, shards: 4 })?;
    let name = Text::of(alloc, "dest")?;
    names.push(NameShards { name, shards: 4 })?;
    let name = Text::of(alloc, "ck")?;
    names.push(NameShards { name, shards: 1 })?;
    Ok(names)
}

/// The update of the topic, as it is read and checked over the collections of a load. It has no
/// fault, so only memory can be wanting.
pub(crate) fn load_update(alloc: Global, names: &Names) -> Result<Checked, Memory>
    requires { names.now ≡ load_names }
    ensures { IfOk result (λ checked. tree_of checked ≡ load_tree) }
{
    match read_checked(alloc, names, UPDATE, Roots::All) {
        Ok(checked) => Ok(checked),
        Err(TextFault::Told(_)) => unreachable!(),
        Err(TextFault::OutOfMemory) => Err(Memory::OutOfMemory),
    }
}
