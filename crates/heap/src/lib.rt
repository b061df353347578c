// The heap: a ready list whose entries stand in a binary tree, each after the one above it.
// Promises: the meaning of a ready list; put and take out touch one path of the tree, first reads its root.
// Knows nothing of tasks and clocks.
#![tactic(auto)]

mod memory;
mod sifts;

ghost use Rattle.std.specs.Prelude.{◌≡◌};
ghost use Rattle.heap.specs.Sound.{Sound, held_in};
ghost use Rattle.ready.specs.Held.{none};
ghost use Rattle.std.proofs.Common.{rules};

use memory::Tree;
use order::entries::{Entry, is_task_number};
use order::ties::TieOrder;
use ready::ReadyList;
use std::marker::Model;

// The tree holds the entries; the order says who of two stands above. Contracts see the tree.
#[derive(Drop)]
pub struct Heap<O> {
    tree: Tree,
    // only its type is read; a `PhantomData` would have `new` drop the order, which need not be `Drop`
    order: O,
}

impl<O> Model for Heap<O> {
    ghost use Rattle.heap.specs.declared.memory.Tree.{Tree};

    ghost Value = { Tree };

    ghost view = { λ h. h.tree };
}

impl<O: TieOrder> Heap<O> {
    // A list that holds nothing.
    pub fn new(order: O) -> Heap<O>
        ensures list { held_in result ≡ none }
        ensures memory { Sound O.TieOrder.before result }
    {
        Heap {
            tree: Tree::new(),
            order,
        }
    }
}

impl<O: TieOrder> ReadyList for Heap<O> {
    type Order = O;

    ghost held = { λ h. held_in h };

    ghost ok = { λ h. Sound O.TieOrder.before h };

    ghost slotted = { Prim.search rules };

    fn empty(&mut self) {
        self.tree = Tree::new();
    }

    fn put(&mut self, e: Entry) -> bool {
        let free = is_task_number(e.number) && self.tree.place_of(e.number).is_none();
        if free {
            self.tree.push::<O>(e);
        }
        free
    }

    fn take_out(&mut self, number: u32) -> bool {
        let Some(place) = self.tree.place_of(number) else {
            return false;
        };
        self.tree.remove::<O>(place);
        true
    }

    fn first(&self) -> Option<Entry> {
        self.tree.root()
    }
}
