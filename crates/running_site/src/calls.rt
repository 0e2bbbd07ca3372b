// The calls of a site.
ghost use Rattle.std.specs.Prelude.{◌≡◌, ◌<◌, [], Contains, OnOk};
ghost use Rattle.query_syntax.specs.Meaning.{IsReadable};
ghost use Rattle.topic_book.specs.Fitness.{shards_of, IsOnCollections};
ghost use Rattle.once_core.specs.Allowed.{MayStore};
ghost use Rattle.exchange_rules.specs.Bindings.{bind_course, store_course, topic_state_course};
ghost use Rattle.exchange_rules.specs.Calls.{Answered, Completed};
ghost use Rattle.exchange_rules.specs.Deliveries.{send_course};
ghost use Rattle.exchange_rules.specs.Rows.{commit_course, cut_course, index_course};
ghost use Rattle.exchange_rules.specs.Steps.{AreStorableWrites};
ghost use Rattle.site_laws.specs.Duties.{MaySend};
ghost use Rattle.site_laws.specs.Looks.{AreStoresSeen};
ghost use Rattle.site_laws.specs.SiteCells.{histories_in};
ghost use Rattle.tuple_values.specs.Document.{ByteList};
ghost use Rattle.running_site.specs.Passes.{number_of, sight_of, writer_of};
ghost use Rattle.running_site.specs.Sites.{layout_at, IsPassAt};

use crate::{PassOn, SiteOf};
use disk_edge::Disk;
use exchange_rules::{Batch, Sent, SiteFault};
use logged_cells::LoggedCell;
use shard_versions::Cut;
use std::alloc::Global;
use std::sync::Wait;
use stream_site::{
    bind_topic_over, commit_all_over, index_over, send_over, store_topic_over, take_cut_over,
    topic_state_over,
};
use topic_book::{Binding, TopicKey};
use tuple_values::{FieldList, Names, Text, Versions, Writes};

impl<D: Disk> SiteOf<LoggedCell<D>> {
    /// The collections.
    pub fn names(&self) -> &Names
        ensures { result.now ≡ self.now.names }
    {
        &self.names
    }

    /// One look at each shard of the collections, in their order and then by shard. What a topic
    /// had stored when its source was last looked at is then seen at a destination of the list.
    pub fn take_cut<R: Wait>(
        &self,
        rt: &R,
        alloc: Global,
        pass: &mut PassOn<D>,
        collections: &FieldList,
    ) -> Result<Cut, SiteFault>
        requires { IsPassAt self.now pass.old }
        ensures own { IsPassAt self.now pass.new }
        ensures number { number_of pass.new ≡ number_of pass.old }
        ensures now { pass.new.now ≡ pass.old.now }
        ensures course { Completed (writer_of pass.old) (writer_of pass.new)
            (cut_course self.now.names [] collections.now) result }
        ensures stored { OnOk result ((src dest : ByteList) → Contains collections.now dest
            → ¬ Contains collections.now src → 0 < shards_of self.now.names dest
            → AreStoresSeen self.now.names (sight_of pass.new) src dest) }
    {
        let mut visit = self.visit(rt, pass);
        let result = take_cut_over(alloc, &mut visit, collections);
        visit.end(pass);
        result
    }

    /// The writes at the collection's shards, and with a commit a Mark on each shard where a write
    /// is pending. The answer is the number of writes.
    pub fn index<R: Wait>(
        &self,
        rt: &R,
        alloc: Global,
        pass: &mut PassOn<D>,
        collection: &Text,
        writes: Writes,
        commit: bool,
    ) -> Result<u64, SiteFault>
        requires own { IsPassAt self.now pass.old }
        requires known { 0 < shards_of self.now.names collection.now }
        requires storable { AreStorableWrites writes }
        ensures own { IsPassAt self.now pass.new }
        ensures number { number_of pass.new ≡ number_of pass.old }
        ensures now { pass.new.now ≡ pass.old.now }
        ensures course { Answered (writer_of pass.old) (writer_of pass.new)
            (index_course (layout_at self.now) collection.now writes commit)
            result }
    {
        let mut visit = self.visit(rt, pass);
        let result = index_over(alloc, &mut visit, collection, writes, commit);
        visit.end(pass);
        result
    }

    /// A Mark on each shard of the collection where a write is pending.
    pub fn commit_all<R: Wait>(
        &self,
        rt: &R,
        alloc: Global,
        pass: &mut PassOn<D>,
        collection: &Text,
    ) -> Result<(), SiteFault>
        requires { IsPassAt self.now pass.old }
        ensures own { IsPassAt self.now pass.new }
        ensures number { number_of pass.new ≡ number_of pass.old }
        ensures now { pass.new.now ≡ pass.old.now }
        ensures course { Answered (writer_of pass.old) (writer_of pass.new)
            (commit_course (layout_at self.now) collection.now) result }
    {
        let mut visit = self.visit(rt, pass);
        let result = commit_all_over(alloc, &mut visit, collection);
        visit.end(pass);
        result
    }

    /// Delivers the batch to its destination: at each shard to which an item routes those that the
    /// shard admits, and a Mark. The answer is how many were admitted, and how many weren't.
    pub fn send<R: Wait>(
        &self,
        rt: &R,
        alloc: Global,
        pass: &mut PassOn<D>,
        dest: &Text,
        src: &Text,
        batch: Batch,
    ) -> Result<Sent, SiteFault>
        requires own { IsPassAt self.now pass.old }
        requires true_items { MaySend self.now.names (writer_of pass.old).seen dest.now src.now
            batch }
        ensures own { IsPassAt self.now pass.new }
        ensures number { number_of pass.new ≡ number_of pass.old }
        ensures now { pass.new.now ≡ pass.old.now }
        ensures course { Answered (writer_of pass.old) (writer_of pass.new)
            (send_course (layout_at self.now) dest.now src.now batch) result }
    {
        let mut visit = self.visit(rt, pass);
        let result = send_over(alloc, &mut visit, dest, src, batch);
        visit.end(pass);
        result
    }

    /// Up to where the topic was delivered, and none where it isn't bound.
    pub fn topic_state<R: Wait>(
        &self,
        rt: &R,
        alloc: Global,
        pass: &mut PassOn<D>,
        key: &TopicKey,
    ) -> Result<Option<Versions>, SiteFault>
        requires { IsPassAt self.now pass.old }
        ensures own { IsPassAt self.now pass.new }
        ensures number { number_of pass.new ≡ number_of pass.old }
        ensures now { pass.new.now ≡ pass.old.now }
        ensures course { Completed (writer_of pass.old) (writer_of pass.new)
            (topic_state_course self.now.names key.now) result }
    {
        let mut visit = self.visit(rt, pass);
        let result = topic_state_over(alloc, &mut visit, key);
        visit.end(pass);
        result
    }

    /// Binds the topic; one that is bound alike stays as it is. The answer is the topic's
    /// checkpoint afterwards.
    pub fn bind_topic<R: Wait>(
        &self,
        rt: &R,
        alloc: Global,
        pass: &mut PassOn<D>,
        key: &TopicKey,
        binding: Binding,
    ) -> Result<Versions, SiteFault>
        requires own { IsPassAt self.now pass.old }
        requires on { IsOnCollections self.now.names key.now binding }
        requires readable { IsReadable binding.q }
        ensures own { IsPassAt self.now pass.new }
        ensures number { number_of pass.new ≡ number_of pass.old }
        ensures now { pass.new.now ≡ pass.old.now }
        ensures course { Answered (writer_of pass.old) (writer_of pass.new)
            (bind_course self.now.names key.now binding) result }
    {
        let mut visit = self.visit(rt, pass);
        let result = bind_topic_over(alloc, &mut visit, key, binding);
        visit.end(pass);
        result
    }

    /// Stores up to where the topic was delivered; where that raises nothing, nothing is added.
    pub fn store_topic<R: Wait>(
        &self,
        rt: &R,
        alloc: Global,
        pass: &mut PassOn<D>,
        key: &TopicKey,
        upto: Versions,
    ) -> Result<(), SiteFault>
        requires own { IsPassAt self.now pass.old }
        requires delivered { MayStore self.now.names
            (histories_in self.now.names (writer_of pass.old).seen) key.now upto }
        ensures own { IsPassAt self.now pass.new }
        ensures number { number_of pass.new ≡ number_of pass.old }
        ensures now { pass.new.now ≡ pass.old.now }
        ensures course { Answered (writer_of pass.old) (writer_of pass.new)
            (store_course self.now.names key.now upto) result }
    {
        let mut visit = self.visit(rt, pass);
        let result = store_topic_over(alloc, &mut visit, key, upto);
        visit.end(pass);
        result
    }
}
