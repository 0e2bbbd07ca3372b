// The record of a writer, taken.
ghost use Rattle.std.specs.Prelude.{◌≡◌};
ghost use Rattle.exchange_rules.specs.Following.{cleared};
ghost use Rattle.root_runs.specs.Stays.{Stays};

use shard_versions::Record;
use stream_site::Turns;

/// The looks and steps since the record was last taken, each in order. The record begins anew, and
/// the writer has no turn afterwards.
pub fn take_record_over<T: Turns>(site: &mut T) -> Record
    ensures marks { result.marks ≡ (T.writer site.old).marks }
    ensures own { result.own ≡ (T.writer site.old).own }
    ensures rest { T.writer site.new ≡ cleared (T.writer site.old) }
    ensures stays { Stays T.layout T.home T.free site.old site.new }
    ensures free { T.free site.new }
{
    let record = site.take_record();
    site.leave();
    record
}
