// What the tests of sites are about: the collection c, or c, ck and d with a topic from c to d; and
// documents that have an id alone, or an id and a number.
ghost use Rattle.std.specs.Prelude.{◌≡◌, IfOk, Some};

use std::alloc::Global;
use topic_book::{Binding, TopicKey};
use tuple_values::{
    FieldList, Memory, NameShards, Names, Text, TryCopy, Tuple, Value, Versions, Write, Writes,
};

/// The collection c of so many shards.
pub(crate) fn names(alloc: Global, shards: u16) -> Result<Names, Memory> {
    let mut names = Names::new(alloc);
    let name = Text::of(alloc, "c")?;
    names.push(NameShards { name, shards })?;
    Ok(names)
}

/// The collections c, ck and d, of one shard each.
pub(crate) fn three_names(alloc: Global) -> Result<Names, Memory> {
    let mut names = Names::new(alloc);
    for name in "c ck d".split_whitespace() {
        names.push(NameShards {
            name: Text::of(alloc, name)?,
            shards: 1,
        })?;
    }
    Ok(names)
}

/// The list of c alone.
pub(crate) fn collections(alloc: Global) -> Result<FieldList, Memory> {
    let mut collections = FieldList::new(alloc);
    collections.push(Text::of(alloc, "c")?)?;
    Ok(collections)
}

fn document(alloc: Global, id: &str) -> Result<Tuple, Memory> {
    let mut document = Tuple::empty(alloc);
    document.put(Text::of(alloc, "id")?, Value::Text(Text::of(alloc, id)?))?;
    Ok(document)
}

fn add_puts(alloc: Global, writes: &mut Writes, ids: &str) -> Result<(), Memory> {
    for id in ids.split_whitespace() {
        writes.push(Write::Put(document(alloc, id)?))?;
    }
    Ok(())
}

/// Puts of documents with these ids.
pub(crate) fn puts(alloc: Global, ids: &str) -> Result<Writes, Memory> {
    let mut writes = Writes::new(alloc);
    add_puts(alloc, &mut writes, ids)?;
    Ok(writes)
}

/// A put of the document with id `1` and this number.
pub(crate) fn numbered(alloc: Global, number: i64) -> Result<Writes, Memory> {
    let mut document = document(alloc, "1")?;
    document.put(Text::of(alloc, "n_i")?, Value::Long(number))?;
    let mut writes = Writes::new(alloc);
    writes.push(Write::Put(document))?;
    Ok(writes)
}

/// A topic, its source and its destination.
pub(crate) struct Route {
    pub(crate) key: TopicKey,
    pub(crate) src: Text,
    pub(crate) dest: Text,
}

impl Drop for Route {
    fn drop(self) {
        let Route { key, src, dest } = self;
        drop(key);
        drop(src);
        drop(dest);
    }
}

/// The topic t, with its checkpoints in ck, from c to d.
pub(crate) fn from_c_to_d(alloc: Global) -> Result<Route, Memory> {
    let checkpoints = Text::of(alloc, "ck")?;
    let id = Text::of(alloc, "t")?;
    let src = Text::of(alloc, "c")?;
    let dest = Text::of(alloc, "d")?;
    let key = TopicKey { checkpoints, id };
    Ok(Route { key, src, dest })
}

fn fields(alloc: Global) -> Result<FieldList, Memory> {
    let mut fields = FieldList::new(alloc);
    fields.push(Text::of(alloc, "id")?)?;
    fields.push(Text::of(alloc, "n_i")?)?;
    Ok(fields)
}

/// The binding of the topic: all documents of one shard from its first version on, with their id
/// and number.
pub(crate) fn binding(alloc: Global, route: &Route) -> Result<Binding, Memory>
    ensures { IfOk result (λ binding. (binding.src ≡ route.now.src)
        × (binding.dest ≡ Some route.now.dest)) }
{
    let q = Text::of(alloc, "*:*")?;
    let fields = fields(alloc)?;
    let mut init = Versions::new(alloc);
    init.push(0)?;
    let src = route.src.copy(alloc)?;
    let dest = Some(route.dest.copy(alloc)?);
    Ok(Binding {
        src,
        q,
        fields,
        dest,
        init,
    })
}
