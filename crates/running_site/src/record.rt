// Passes of a table with records, and without them.
ghost use Rattle.std.specs.Prelude.{◌≡◌, ◌++◌, IfOk, OnOk, map};
ghost use Rattle.running_site.specs.Records.{content, inside_of, passes_in, recorded};

use crate::pass::TablePass;
use crate::{PassOf, PassOn, PassesOn};
use std::alloc::Global;
use tuple_values::{Memory, Sequence};

/// The pass with an empty record, at the time 0.
fn with_record<D>(alloc: Global, pass: TablePass<D>) -> PassOn<D>
    ensures { content result ≡ recorded pass }
{
    PassOf {
        alloc,
        pass: Some(pass),
        marks: Vec::new(alloc),
        own: Vec::new(alloc),
        now: 0,
    }
}

/// Each pass with an empty record, at the time 0.
pub(crate) fn with_records<D: Drop>(
    alloc: Global,
    passes: Sequence<TablePass<D>>,
) -> Result<PassesOn<D>, Memory>
    ensures { IfOk result (λ made. map content made ≡ map recorded passes) }
{
    let mut made = PassesOn::new(alloc);
    for pass in passes.into_vec() {
        made.push(with_record(alloc, pass))?;
    }
    Ok(made)
}

/// The pass behind the others, where it is there.
fn keep<D: Drop>(
    passes: &mut Sequence<TablePass<D>>,
    pass: Option<TablePass<D>>,
) -> Result<(), Memory>
    ensures { OnOk result (passes.new ≡ passes.old ++ inside_of pass) }
{
    match pass {
        Some(inside) => passes.push(inside),
        None => Ok(()),
    }
}

/// The passes alone.
pub(crate) fn without_records<D: Drop>(
    alloc: Global,
    passes: PassesOn<D>,
) -> Result<Sequence<TablePass<D>>, Memory>
    ensures { IfOk result (λ made. made ≡ passes_in passes) }
{
    let mut made = Sequence::new(alloc);
    for one in passes.into_vec() {
        let PassOf {
            alloc: _,
            pass,
            marks,
            own,
            now: _,
        } = one;
        drop(marks);
        drop(own);
        keep(&mut made, pass)?;
    }
    Ok(made)
}
