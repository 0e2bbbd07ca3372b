// The work of a query thread.
ghost use Rattle.std.specs.Prelude.{◌≡◌, IfOk};
ghost use Rattle.expr_check.specs.Views.{tree_of};
ghost use Rattle.expr_types.specs.Plain.{IsPlain};
ghost use Rattle.running_site.specs.Passes.{number_of, writer_of};
ghost use Rattle.running_site.specs.Sites.{IsPassAt};
ghost use Rattle.load_rules.specs.Topic.{load_names};
ghost use Rattle.load_mix.specs.Queries.{IsGiven, query_tree};
ghost use Rattle.load_rules.specs.Worked.{HasRead};

use expr_check::{Checked, Roots};
use expr_text::{TextFault, read_checked};
use io_edge::Gate;
use parallel_parts::eval;
use running_site::{Pass, Site, SiteFault};
use std::alloc::Global;
use std::sync::Wait;
use std::thread::Threads;
use tuple_values::{Memory, Names, Tuples};

/// Per group the sum of the amounts and how many documents there are, on four workers.
const QUERY: &[u8] = b"parallel(src,rollup(search(src,q=\"*:*\",fl=\"g_s,a_i\",sort=\"g_s asc\",\
    partitionKeys=\"g_s\"),over=\"g_s\",sum(a_i),count(*)),workers=4,sort=\"g_s asc\")";

/// The query of a load's query threads. It has no fault, so memory alone can be wanting.
pub(crate) fn read_query(alloc: Global, names: &Names) -> Result<Checked, Memory>
    requires { names.now ≡ load_names }
    ensures tree { IfOk result (λ checked. tree_of checked ≡ query_tree) }
    ensures plain { IfOk result (λ checked. IsPlain (tree_of checked)) }
{
    match read_checked(alloc, names, QUERY, Roots::Plain) {
        Ok(checked) => Ok(checked),
        Err(TextFault::Told(_)) => unreachable!(),
        Err(TextFault::OutOfMemory) => Err(Memory::OutOfMemory),
    }
}

/// One query: takes a cut of the collections that the expression reads, and evaluates it over the
/// cut. The pass only reads, also where memory is wanting.
pub(crate) fn query<R: Threads + Wait + Sync, G: Gate>(
    rt: &R,
    alloc: Global,
    site: &Site,
    pass: &mut Pass,
    checked: &Checked,
    gate: &G,
) -> Result<Tuples, SiteFault>
    requires own { IsPassAt site.now pass.old }
    requires plain { IsPlain (tree_of checked.now) }
    ensures own { IsPassAt site.now pass.new }
    ensures number { number_of pass.new ≡ number_of pass.old }
    ensures read { HasRead (writer_of pass.old) (writer_of pass.new) }
    ensures given { IfOk result (IsGiven site.now.names (tree_of checked.now)
        (writer_of pass.old) (writer_of pass.new)) }
{
    let cut = site.take_cut(rt, alloc, pass, checked.collections())?;
    Ok(eval(rt, alloc, checked, &cut, gate)?)
}
