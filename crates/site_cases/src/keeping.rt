// Tests of what a call asks, whose looks aren't told: what was recorded before is kept aside.
ghost use Rattle.std.specs.Prelude.{◌≡◌, ◌<◌, IfOk, IfSome, IsTrue};
ghost use Rattle.std.specs.List.{AllByRecursion};
ghost use Rattle.topic_book.specs.Fitness.{shards_of};
ghost use Rattle.once_core.specs.Allowed.{MayStore};
ghost use Rattle.site_laws.specs.Duties.{IsItem};
ghost use Rattle.site_laws.specs.SiteCells.{histories_in};
ghost use Rattle.running_site.specs.Passes.{writer_of};
ghost use Rattle.running_site.specs.Sites.{IsPassAt};

use crate::fixture::Fixture;
use case_items::{current_items, may_store_nowhere};
use running_site::{Pass, Site};
use shard_versions::{CutMarks, OwnMarks, Record};
use std::alloc::Global;
use std::mem::replace;
use std::sync::Wait;
use stream_site::Batch;
use topic_book::TopicKey;
use tuple_values::{FieldList, Memory, Text, Versions};

/// The record of no look and no step.
pub fn no_record(alloc: Global) -> Record {
    Record {
        marks: CutMarks::new(alloc),
        own: OwnMarks::new(alloc),
    }
}

fn add_marks(kept: &mut Record, marks: CutMarks) -> Result<(), Memory> {
    for mark in marks.into_vec() {
        kept.marks.push(mark)?;
    }
    Ok(())
}

fn add_own(kept: &mut Record, own: OwnMarks) -> Result<(), Memory> {
    for mark in own.into_vec() {
        kept.own.push(mark)?;
    }
    Ok(())
}

// Keeps what the pass has recorded aside, behind what was kept before.
fn keep(fixture: &mut Fixture) -> Result<(), Memory>
    requires { IsPassAt fixture.old.site fixture.old.pass }
    ensures own { IsPassAt fixture.new.site fixture.new.pass }
    ensures site { fixture.new.site ≡ fixture.old.site }
{
    let Record { marks, own } = fixture.pass.take_record();
    add_marks(&mut fixture.kept, marks)?;
    add_own(&mut fixture.kept, own)
}

/// The looks and steps of calls since the last such call, and not those of tests.
pub fn take_kept(alloc: Global, fixture: &mut Fixture) -> Result<Record, Memory>
    requires { IsPassAt fixture.old.site fixture.old.pass }
    ensures { IsPassAt fixture.new.site fixture.new.pass }
{
    keep(fixture)?;
    Ok(replace(&mut fixture.kept, no_record(alloc)))
}

// The items, whose looks are dropped.
fn items_at<R: Wait>(
    rt: &R,
    alloc: Global,
    site: &Site,
    pass: &mut Pass,
    src: &Text,
    ids: &FieldList,
) -> Result<Option<Batch>, Memory>
    requires own { IsPassAt site.now pass.old }
    requires known { 0 < shards_of site.now.names src.now }
    ensures own { IsPassAt site.now pass.new }
    ensures items { (dest : _) → IfOk result (λ items. IfSome items (AllByRecursion
        (IsItem site.now.names (writer_of pass.new).seen dest src.now))) }
{
    let mut visit = site.visit(rt, pass);
    let items = current_items(alloc, &mut visit, src, ids);
    visit.end(pass);
    drop(pass.take_record());
    items
}

/// The current documents of the source as items that may be delivered to any other collection:
/// those with these ids, or all where there is no id.
pub fn items_of<R: Wait>(
    rt: &R,
    alloc: Global,
    fixture: &mut Fixture,
    src: &Text,
    ids: &FieldList,
) -> Result<Option<Batch>, Memory>
    requires own { IsPassAt fixture.old.site fixture.old.pass }
    requires known { 0 < shards_of fixture.old.site.names src.now }
    ensures own { IsPassAt fixture.new.site fixture.new.pass }
    ensures site { fixture.new.site ≡ fixture.old.site }
    ensures items { (dest : _) → IfOk result (λ items. IfSome items (AllByRecursion
        (IsItem fixture.old.site.names (writer_of fixture.new.pass).seen dest src.now))) }
{
    keep(fixture)?;
    items_at(rt, alloc, &fixture.site, &mut fixture.pass, src, ids)
}

// Whether the versions may be stored, by looks that are dropped.
fn may_store_at<R: Wait>(
    rt: &R,
    alloc: Global,
    site: &Site,
    pass: &mut Pass,
    key: &TopicKey,
    upto: &Versions,
) -> Result<bool, Memory>
    requires { IsPassAt site.now pass.old }
    ensures own { IsPassAt site.now pass.new }
    ensures allowed { IfOk result (λ may. IsTrue may → MayStore site.now.names
        (histories_in site.now.names (writer_of pass.new).seen) key.now upto.now) }
{
    let mut visit = site.visit(rt, pass);
    let may = may_store_nowhere(alloc, &mut visit, key, upto);
    visit.end(pass);
    drop(pass.take_record());
    may
}

/// Whether the versions may be stored, of a topic that has no destination.
pub fn may_store<R: Wait>(
    rt: &R,
    alloc: Global,
    fixture: &mut Fixture,
    key: &TopicKey,
    upto: &Versions,
) -> Result<bool, Memory>
    requires { IsPassAt fixture.old.site fixture.old.pass }
    ensures own { IsPassAt fixture.new.site fixture.new.pass }
    ensures allowed { IfOk result (λ may. IsTrue may → MayStore fixture.new.site.names
        (histories_in fixture.new.site.names (writer_of fixture.new.pass).seen) key.now upto.now) }
{
    keep(fixture)?;
    may_store_at(rt, alloc, &fixture.site, &mut fixture.pass, key, upto)
}
