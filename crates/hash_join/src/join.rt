// The pairs of left and right tuples that are equal by their fields, in any order of the inputs.
ghost use Rattle.std.specs.Prelude.{◌≡◌, List, [], ◌∷◌, false, length, IfOk, OnOk, if◌then◌else◌};
ghost use Rattle.tuple_values.specs.Document.{Doc};
ghost use Rattle.expr_types.specs.Joins.{join_list, outer_join_list};
ghost use Rattle.hash_join.specs.Buckets.{AddsUnder};
ghost use Rattle.hash_join.specs.HashState as join;
ghost use Rattle.hash_join.specs.JoinKeys.{right_key};

use crate::held::{Held, give, hold};
use crate::key_pairs::KeyPairs;
use crate::table::Table;
use kernel_laws::{Ask, Kernel, OneInput};
use sort_spec::OnSpec;
use std::alloc::Global;
use tuple_values::{Memory, Tuple};

/// Gives a left tuple over a right one for each two that are equal by pairs of fields, and a left
/// tuple without an equal as it is where the join is outer. Input 0 gives the left tuples, input 1
/// the right ones, which are read whole before the first left tuple.
pub struct HashJoinKernel {
    alloc: Global,
    outer: bool,
    on: KeyPairs,
    table: Table,
    held: Held,
    // The left input, and whether memory was wanting.
    left: OneInput,
    // Whether all right tuples have come.
    whole: bool,
}

impl Drop for HashJoinKernel {
    fn drop(self) {
        let HashJoinKernel {
            alloc: _,
            outer: _,
            on,
            table,
            held,
            left,
            whole: _,
        } = self;
        drop(on);
        drop(table);
        drop(held);
        drop(left);
    }
}

impl HashJoinKernel {
    /// Joins two inputs. The join is outer where that is set, else inner.
    pub fn make(alloc: Global, outer: bool, on: &OnSpec) -> Result<HashJoinKernel, Memory>
        ensures ready { IfOk result (λ k. (lefts rights : List Doc)
            → join.ready k (lefts ∷ rights ∷ [])) }
        ensures out { IfOk result (λ k. (lefts rights : List Doc)
            → join.out k (lefts ∷ rights ∷ [])
            ≡ (if outer then outer_join_list on.now lefts rights
            else join_list on.now lefts rights)) }
        ensures width { IfOk result (λ k. length (join.ended k) ≡ 2) }
        ensures lives { IfOk result (λ k. join.failed k ≡ false) }
    {
        let on = KeyPairs::of(alloc, on)?;
        Ok(HashJoinKernel {
            alloc,
            outer,
            on,
            table: Table::empty(alloc),
            held: Held::Nothing,
            left: OneInput::open(),
            whole: false,
        })
    }
}

impl Kernel for HashJoinKernel {
    ghost ended = { join.ended };

    ghost waits = { join.waits };

    ghost ready = { join.ready };

    ghost out = { join.out };

    ghost over = { join.over };

    ghost failed = { join.failed };

    ghost lean = { false };

    fn inputs(&self) -> u32 {
        2
    }

    fn ask(&mut self) -> Result<Ask, Memory> {
        self.left.lives()?;
        let given = give(self.alloc, &self.on, &self.table, &mut self.held);
        let next = self.left.keep(given)?;
        if next.is_none() && !self.whole {
            return Ok(Ask::Need(1));
        }
        self.left.answer(next)
    }

    fn feed(&mut self, input: u32, tuple: Option<Tuple>) -> Result<(), Memory> {
        self.left.lives()?;
        if input == 0 {
            match tuple {
                Some(left) => {
                    let held = hold(self.alloc, self.outer, &self.on, &self.table, left);
                    self.held = self.left.keep(held)?;
                }
                None => self.left.end(),
            }
            return Ok(());
        }
        match tuple {
            Some(right) => {
                let added = add(self.alloc, &self.on, &mut self.table, right);
                self.left.keep(added)?;
            }
            None => self.whole = true,
        }
        Ok(())
    }
}

// Puts a right tuple behind those of its key.
fn add(alloc: Global, on: &KeyPairs, table: &mut Table, right: Tuple) -> Result<(), Memory>
    ensures { OnOk result (AddsUnder (right_key on.now right) right table.old table.new) }
{
    let key = on.right_key(alloc, &right)?;
    table.add(alloc, key, right)
}
