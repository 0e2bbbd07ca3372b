// Streams, read by the tuple.
ghost use Rattle.std.specs.Prelude.{◌≡◌, ◌<◌, ◌+◌, List, length, true, false, slice_index_or};
ghost use Rattle.std.specs.Prelude.{IfOk, OnOk, IfErr, IsErr};
ghost use Rattle.source_streams.specs.Reads.{IsNext};
ghost use Rattle.stream_engine.specs.Flows.{rests_of, to_come, unended};
ghost use Rattle.stream_engine.specs.Views.{list_in, depth_in, IsSound, deepest};
ghost use Rattle.stream_engine.specs.Kernels.{any_out, any_ready, any_ended, any_waits};

use crate::any_kernel::AnyKernel;
use crate::fed::Fed;
use kernel_laws::{Ask, Kernel};
use source_streams::{SearchCursor, TupleOnce};
use std::alloc::Global;
use std::marker::Model;
use tuple_values::{Memory, Tuple, Tuples};

/// A source, or a kernel over the streams of its inputs. A contract sees the list that is still to
/// come, how deep the stream nests, and whether memory was wanting.
#[cycle(streams)]
pub struct Stream {
    node: Node,
    failed: bool,
}

impl Drop for Stream {
    #[cycle(streams)]
    fn drop(self) {
        let Stream { node, failed: _ } = self;
        drop(node);
    }
}

#[cycle(streams)]
#[derive(Drop)]
enum Node {
    Search(SearchCursor),
    Once(TupleOnce),
    Fed(Fed),
    Kernel {
        kernel: AnyKernel,
        inputs: Vec<Stream>,
    },
}

impl Model for Stream {
    ghost use Rattle.stream_engine.specs.Flows.{Flow, flow_code, depth_of};
    ghost use Rattle.std.specs.Prelude.{◌≡◌, false};
    ghost use Rattle.std.proofs.Common.{arith};

    ghost Value = { Flow };

    ghost coded = { flow_code };

    ghost use Rattle.stream_engine.specs.Views.{list_in, depth_in, IsSound};

    ghost view = { λ s. (list_in s.node, depth_in s.node, s.failed) };

    ghost invariant = { λ s. s.failed ≡ false → IsSound s.node };

    ghost size = { depth_of };

    ghost use Rattle.stream_engine.specs.Falls.{node_falls};

    ghost size_decreases = { λ s h. node_falls s.node };
}

impl Stream {
    /// The stream of a search.
    pub(crate) fn search(cursor: SearchCursor) -> Stream
        ensures list { result.0 ≡ cursor }
        ensures lives { result.2 ≡ false }
    {
        Stream {
            node: Node::Search(cursor),
            failed: false,
        }
    }

    /// The stream of one tuple.
    pub(crate) fn once(once: TupleOnce) -> Stream
        ensures list { result.0 ≡ once }
        ensures lives { result.2 ≡ false }
    {
        Stream {
            node: Node::Once(once),
            failed: false,
        }
    }

    /// The stream of a list.
    pub(crate) fn fed(fed: Fed) -> Stream
        ensures list { result.0 ≡ fed }
        ensures lives { result.2 ≡ false }
    {
        Stream {
            node: Node::Fed(fed),
            failed: false,
        }
    }

    /// The stream of what a kernel makes of its inputs.
    pub(crate) fn over(kernel: AnyKernel, inputs: Vec<Stream>) -> Stream
        requires ready { any_ready kernel (rests_of inputs.items) }
        requires width { length (any_ended kernel) ≡ length inputs.items }
        ensures list { result.0 ≡ any_out kernel (rests_of inputs.items) }
        ensures lives { result.2 ≡ false }
    {
        Stream {
            node: Node::Kernel { kernel, inputs },
            failed: false,
        }
    }

    /// The next tuple; none exactly at the end, and from then on. After a want of memory each read
    /// answers that.
    #[cycle(reading)]
    pub fn read(&mut self) -> Result<Option<Tuple>, Memory>
        ensures next { IfOk result (λ next. IsNext self.old.0 next self.new.0) }
        ensures depth { self.new.1 ≡ self.old.1 }
        ensures fails { IfErr result (λ _. self.new.2 ≡ true) }
        ensures failed { self.old.2 ≡ true → IsErr result }
        ensures lives { OnOk result (self.new.2 ≡ false) }
    {
        if self.failed {
            return Err(Memory::OutOfMemory);
        }
        let next = step(&mut self.node);
        if next.is_err() {
            self.failed = true;
        }
        next
    }
}

// The next tuple of a node.
#[cycle(reading)]
fn step(node: &mut Node) -> Result<Option<Tuple>, Memory>
    requires { IsSound node.old }
    ensures next { IfOk result (λ next. IsNext (list_in node.old) next (list_in node.new)) }
    ensures sound { OnOk result (IsSound node.new) }
    ensures depth { depth_in node.new ≡ depth_in node.old }
{
    match node {
        Node::Search(cursor) => cursor.read(),
        Node::Once(once) => once.read(),
        Node::Fed(fed) => Ok(fed.read()),
        Node::Kernel { kernel, inputs } => pull(kernel, inputs),
    }
}

// What a kernel emits next, which is fed with what it needs.
#[cycle(reading)]
#[tactic(auto, using(crate::proofs::Inputs::deepest_set))]
fn pull(kernel: &mut AnyKernel, inputs: &mut Vec<Stream>) -> Result<Option<Tuple>, Memory>
    requires ready { any_ready kernel.old (rests_of inputs.old.items) }
    requires inputs { length (any_ended kernel.old) ≡ length inputs.old.items }
    ensures next { IfOk result (λ next. IsNext
        (any_out kernel.old (rests_of inputs.old.items)) next
        (any_out kernel.new (rests_of inputs.new.items))) }
    ensures ready { OnOk result (any_ready kernel.new (rests_of inputs.new.items)) }
    ensures inputs { OnOk result (length (any_ended kernel.new) ≡ length inputs.new.items) }
    ensures depth { deepest inputs.new.items ≡ deepest inputs.old.items }
{
    'asks: loop {
        match kernel.ask()? {
            Ask::Emit(tuple) => {
                return Ok(Some(tuple));
            }
            Ask::Need(i) => supply(kernel, inputs, i)?,
            Ask::End => {
                return Ok(None);
            }
        }
    }
}

// Feeds a kernel with the next tuple of an input that it waits for, or with the input's end.
#[cycle(reading)]
#[tactic(auto, using(crate::proofs::Inputs::deepest_set))]
fn supply(kernel: &mut AnyKernel, inputs: &mut Vec<Stream>, i: u32) -> Result<(), Memory>
    requires open { slice_index_or (any_ended kernel.old) i true ≡ false }
    requires waits { any_waits kernel.old i }
    requires ready { any_ready kernel.old (rests_of inputs.old.items) }
    requires inputs { length (any_ended kernel.old) ≡ length inputs.old.items }
    ensures ready { OnOk result (any_ready kernel.new (rests_of inputs.new.items)) }
    ensures out { OnOk result (any_out kernel.new (rests_of inputs.new.items)
        ≡ any_out kernel.old (rests_of inputs.old.items)) }
    ensures inputs { OnOk result (length (any_ended kernel.new) ≡ length inputs.new.items) }
    ensures depth { deepest inputs.new.items ≡ deepest inputs.old.items }
    ensures falls { OnOk result (to_come inputs.new.items + unended (any_ended kernel.new)
        < to_come inputs.old.items + unended (any_ended kernel.old)) }
{
    let input = &mut inputs[i as usize];
    let tuple = input.read()?;
    kernel.feed(i, tuple)?;
    Ok(())
}

/// The stream of a list, which is moved in. Takes no memory.
pub fn listed(tuples: Tuples) -> Stream
    ensures list { result.0 ≡ tuples }
    ensures lives { result.2 ≡ false }
{
    Stream::fed(Fed::new(tuples))
}

/// All tuples that are still to come.
pub fn drain(alloc: Global, stream: Stream) -> Result<Tuples, Memory>
    ensures { IfOk result (λ tuples. tuples ≡ stream.0) }
{
    let mut stream = stream;
    read_all(alloc, &mut stream)
}

// Reads a stream to its end.
fn read_all(alloc: Global, stream: &mut Stream) -> Result<Tuples, Memory>
    ensures { IfOk result (λ tuples. tuples ≡ stream.old.0) }
{
    let mut tuples = Tuples::empty(alloc);
    while let Some(tuple) = stream.read()? {
        tuples.push(tuple)?;
    }
    Ok(tuples)
}
