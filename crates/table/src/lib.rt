// The searched table: a ready list whose slots are the task numbers themselves.
// Promises: the meaning of a ready list; put and take out touch one slot, first looks through all.
// Knows nothing of tasks and clocks.
#![tactic(auto)]

ghost use Rattle.std.specs.Prelude.{◌≡◌};
ghost use Rattle.ready.specs.Held.{Slotted, better as better_of, none};
ghost use Rattle.std.proofs.Common.{rules};

use order::entries::{Entry, slot_of};
use order::ties::TieOrder;
use ready::ReadyList;
use std::marker::Model;

// One slot for each task number; number k lies in slot k - 1. Contracts see the slots.
#[derive(Drop)]
pub struct Table<O> {
    slots: [Option<Entry>; 64],
    // only its type is read; a `PhantomData` would have `new` drop the order, which need not be `Drop`
    order: O,
}

impl<O> Model for Table<O> {
    ghost use Rattle.ready.specs.Held.{Held};

    ghost Value = { Held };

    ghost view = { λ t. t.slots };
}

impl<O: TieOrder> Table<O> {
    // A list that holds nothing.
    pub fn new(order: O) -> Table<O>
        ensures { result ≡ none }
    {
        Table {
            slots: [None; 64],
            order,
        }
    }
}

// The better of the best entry so far and what one more slot holds.
fn better<O: TieOrder>(best: Option<Entry>, slot: Option<Entry>) -> Option<Entry>
    ensures { result ≡ better_of O.TieOrder.before best slot }
{
    match (best, slot) {
        (Some(b), Some(e)) => Some(if O::comes_before(e, b) { e } else { b }),
        _ => best.or(slot),
    }
}

impl<O: TieOrder> ReadyList for Table<O> {
    type Order = O;

    ghost held = { λ t. t };

    ghost ok = { λ t. Slotted t };

    ghost slotted = { Prim.search rules };

    fn empty(&mut self) {
        self.slots = [None; 64];
    }

    fn put(&mut self, e: Entry) -> bool {
        let Some(place) = slot_of(e.number) else {
            return false;
        };
        if self.slots[place].is_some() {
            return false;
        }
        self.slots[place] = Some(e);
        true
    }

    fn take_out(&mut self, number: u32) -> bool {
        let Some(place) = slot_of(number) else {
            return false;
        };
        self.slots[place].take().is_some()
    }

    fn first(&self) -> Option<Entry> {
        self.slots
            .iter()
            .fold(None, |best, slot| better::<O>(best, *slot))
    }
}
