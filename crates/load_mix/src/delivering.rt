// One run of a load's topic.
ghost use Rattle.std.specs.Prelude.{◌≡◌, OnOk};
ghost use Rattle.expr_check.specs.Views.{tree_of};
ghost use Rattle.running_site.specs.Passes.{number_of, writer_of};
ghost use Rattle.running_site.specs.Sites.{IsPassAt};
ghost use Rattle.load_rules.specs.Topic.{load_names};
ghost use Rattle.load_mix.specs.Sink.{IsLoadDelivery};
ghost use Rattle.load_mix.specs.Topic.{load_tree};
ghost use Rattle.load_rules.specs.Worked.{HasDelivered};

use expr_check::{Checked, Feed, Root};
use io_edge::Gate;
use running_site::{Pass, Site};
use std::alloc::Global;
use std::sync::Wait;
use update_sink::{Delivery, TopicFault, run_topic};

/// The delivery that the checked update of a load's topic is.
pub(crate) fn delivery_of<'a>(checked: &'a Checked) -> Delivery<'a>
    requires { tree_of checked.now ≡ load_tree }
    ensures { IsLoadDelivery result }
{
    let Root::Update(update) = checked.root() else {
        unreachable!()
    };
    let Feed::Topic(topic) = update.feed else {
        unreachable!()
    };
    Delivery {
        topic,
        input: update.input,
        dest: update.dest,
        batch_size: update.batch_size,
    }
}

/// Runs the topic of a load once: what it gives of what the pass then sees of the source is
/// delivered, and its checkpoint is stored.
pub(crate) fn deliver<R: Wait, G: Gate>(
    rt: &R,
    alloc: Global,
    site: &Site,
    pass: &mut Pass,
    delivery: &Delivery<'_>,
    gate: &G,
) -> Result<(), TopicFault>
    requires own { IsPassAt site.now pass.old }
    requires names { site.now.names ≡ load_names }
    requires delivery { IsLoadDelivery delivery.now }
    ensures own { IsPassAt site.now pass.new }
    ensures number { number_of pass.new ≡ number_of pass.old }
    ensures done { OnOk result (HasDelivered (writer_of pass.old) (writer_of pass.new)) }
{
    let mut visit = site.visit(rt, pass);
    let result = run_topic(alloc, &mut visit, delivery, gate);
    visit.end(pass);
    match result {
        Ok(_) => Ok(()),
        Err(fault) => Err(fault),
    }
}
