// Nodes in a tree for each tag, which take no memory as they grow into their room.
ghost use Rattle.std.specs.Prelude.{◌≡◌, ◌+◌, ◌<◌, ◌≤◌, ◌++◌, ◌∷◌, [], nat_eq, length, OnOk, ℕ, if◌then◌else◌};
ghost use Rattle.shard_versions.specs.Trees.{leaf, place_at, below, linked, moved, first_of, room_of};

use std::alloc::{AllocError, Global};
use std::collections::HashMap;

/// A place, counted from 1, and the numbers of the nodes below on both sides, with 0 for none.
#[derive(Clone, Copy, Drop)]
pub(crate) struct Node {
    place: usize,
    left: usize,
    right: usize,
}

/// The nodes, which have the numbers from 1 on, and the number of the first one of each tag.
#[derive(Drop)]
pub(crate) struct Tree {
    nodes: Vec<Node>,
    roots: HashMap<u64, usize>,
}

impl Tree {
    /// No node.
    pub(crate) fn empty(alloc: Global) -> Tree
        ensures nodes { result.nodes.items ≡ [] }
        ensures roots { (tag : ℕ) → first_of result tag ≡ 0 }
    {
        Tree {
            nodes: Vec::new(alloc),
            roots: HashMap::new(alloc),
        }
    }

    /// The number of the first node of the tag, and 0 where it has none.
    pub(crate) fn first(&self, tag: u64) -> usize
        ensures { result ≡ first_of self.now tag }
    {
        match self.roots.get(&tag) {
            Some(number) => *number,
            None => 0,
        }
    }

    /// The place of the node with this number.
    pub(crate) fn place(&self, number: usize) -> usize
        requires some { 0 < number }
        requires few { number ≤ length self.now.nodes.items }
        ensures { result ≡ place_at self.now.nodes.items number }
    {
        self.nodes[number - 1].place
    }

    /// The number below the node with this number on a side, and 0 where there is none.
    pub(crate) fn below(&self, number: usize, right: bool) -> usize
        requires some { 0 < number }
        requires few { number ≤ length self.now.nodes.items }
        ensures { result ≡ below self.now.nodes.items right number }
    {
        let node = self.nodes[number - 1];
        if right { node.right } else { node.left }
    }

    /// Makes room for so many more nodes.
    pub(crate) fn reserve(&mut self, more: usize) -> Result<(), AllocError>
        ensures nodes { self.new.nodes.items ≡ self.old.nodes.items }
        ensures roots { (tag : ℕ) → first_of self.new tag ≡ first_of self.old tag }
        ensures kept { room_of self.old ≤ room_of self.new }
        ensures ok { OnOk result (more ≤ room_of self.new) }
    {
        self.nodes.reserve(more)?;
        self.roots.reserve(more)?;
        Ok(())
    }

    /// Adds the first node of a tag. Takes no memory.
    pub(crate) fn plant(&mut self, tag: u64, place: usize)
        requires { 0 < room_of self.old }
        ensures nodes { self.new.nodes.items ≡ self.old.nodes.items ++ leaf place ∷ [] }
        ensures roots { (other : ℕ) → first_of self.new other
            ≡ (if nat_eq tag other then length self.old.nodes.items + 1 else first_of self.old other) }
        ensures room { room_of self.old ≤ room_of self.new + 1 }
    {
        let number = self.nodes.len() + 1;
        self.nodes.push_reserved(Node {
            place,
            left: 0,
            right: 0,
        });
        let noted = self.roots.insert(tag, number).is_ok();
        prove!(noted);
    }

    /// Adds a node below another one on a side. Takes no memory.
    pub(crate) fn attach(&mut self, number: usize, right: bool, place: usize)
        requires room { 0 < room_of self.old }
        requires some { 0 < number }
        requires few { number ≤ length self.old.nodes.items }
        ensures nodes { self.new.nodes.items
            ≡ linked number right (length self.old.nodes.items + 1) self.old.nodes.items
            ++ leaf place ∷ [] }
        ensures roots { (tag : ℕ) → first_of self.new tag ≡ first_of self.old tag }
        ensures room { room_of self.old ≤ room_of self.new + 1 }
    {
        let lower = self.nodes.len() + 1;
        let node = self.nodes[number - 1];
        self.nodes[number - 1] = if right {
            Node {
                right: lower,
                ..node
            }
        } else {
            Node {
                left: lower,
                ..node
            }
        };
        self.nodes.push_reserved(Node {
            place,
            left: 0,
            right: 0,
        });
    }

    /// Moves the place of a node.
    pub(crate) fn move_to(&mut self, number: usize, place: usize)
        requires some { 0 < number }
        requires few { number ≤ length self.old.nodes.items }
        ensures nodes { self.new.nodes.items ≡ moved number place self.old.nodes.items }
        ensures roots { (tag : ℕ) → first_of self.new tag ≡ first_of self.old tag }
        ensures room { room_of self.new ≡ room_of self.old }
    {
        let node = self.nodes[number - 1];
        self.nodes[number - 1] = Node { place, ..node };
    }
}
