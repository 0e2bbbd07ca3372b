// What a stream's tuples are made of.
ghost use Rattle.std.specs.Prelude.{◌≡◌, IfOk};

use sort_spec::SortSpec;
use std::alloc::Global;
use tuple_values::{FieldList, Memory, Sequence, Text, TryCopy, Value};

/// What `select` does with a tuple (Solr Reference Guide, "Stream Decorator Reference", select).
#[derive(Drop)]
pub enum Item {
    /// The field under a new name, perhaps its own.
    Field {
        name: Text,
        to: Text,
    },
    /// Where the field's value is the old one it becomes the new one. No old value stands for an
    /// absent field, and no new one takes the field away.
    Replace {
        field: Text,
        old: Option<Value>,
        new: Option<Value>,
    },
    /// The texts of the fields, joined, become the value of a field.
    Concat {
        fields: FieldList,
        into: Text,
        delim: Text,
    },
}

/// Items in their order.
pub type Items = Sequence<Item>;

impl TryCopy for Item {
    fn copy(&self, alloc: Global) -> Result<Self, Memory> {
        match self {
            Item::Field { name, to } => {
                let name = name.copy(alloc)?;
                let to = to.copy(alloc)?;
                Ok(Item::Field { name, to })
            }
            Item::Replace { field, old, new } => {
                let field = field.copy(alloc)?;
                let old = copy_maybe(alloc, old)?;
                let new = copy_maybe(alloc, new)?;
                Ok(Item::Replace { field, old, new })
            }
            Item::Concat {
                fields,
                into,
                delim,
            } => {
                let fields = fields.copy(alloc)?;
                let into = into.copy(alloc)?;
                let delim = delim.copy(alloc)?;
                Ok(Item::Concat {
                    fields,
                    into,
                    delim,
                })
            }
        }
    }
}

fn copy_maybe(alloc: Global, value: &Option<Value>) -> Result<Option<Value>, Memory>
    ensures { IfOk result (λ copy. copy ≡ value.now) }
{
    match value {
        None => Ok(None),
        Some(value) => Ok(Some(value.copy(alloc)?)),
    }
}

/// What `rollup` computes over the tuples of a group, over a field or over all tuples.
#[derive(Drop)]
pub enum Metric {
    Sum(Text),
    Min(Text),
    Max(Text),
    Count,
}

/// Metrics in their order.
pub type Metrics = Sequence<Metric>;

impl TryCopy for Metric {
    fn copy(&self, alloc: Global) -> Result<Self, Memory> {
        match self {
            Metric::Sum(field) => Ok(Metric::Sum(field.copy(alloc)?)),
            Metric::Min(field) => Ok(Metric::Min(field.copy(alloc)?)),
            Metric::Max(field) => Ok(Metric::Max(field.copy(alloc)?)),
            Metric::Count => Ok(Metric::Count),
        }
    }
}

/// What `reduce` keeps of a group: the first `n` tuples by a sort.
#[derive(Drop)]
pub struct GroupOp {
    pub sort: SortSpec,
    pub n: u64,
}

impl TryCopy for GroupOp {
    fn copy(&self, alloc: Global) -> Result<Self, Memory> {
        let sort = self.sort.copy(alloc)?;
        Ok(GroupOp { sort, n: self.n })
    }
}
