// The ready list, by its meaning: which entries it holds and which of them comes first.
// Promises: every list that keeps these contracts serves every caller alike.
// Knows nothing of how a list is stored, nor of tasks and clocks.
#![tactic(auto)]

ghost use Rattle.std.specs.Prelude.{◌≡◌};
ghost use Rattle.ready.specs.Held.{Held, Least, Slotted, first_of, free, holds, none, put_in, taken_out};

use order::entries::Entry;
use order::ties::TieOrder;

pub trait ReadyList {
    type Order: TieOrder;

    // the entries that the list holds
    ghost held: { Self → Held };

    // the list's own memory is in order; no invariant of the type, since it may depend on the order, which a list's memory does not know
    ghost ok: { Self → Type 0 };

    // Leaves nothing in the list, whatever its memory held before.
    fn empty(&mut self)
        ensures list { held self.new ≡ none }
        ensures memory { ok self.new };

    // Adds the entry; no exactly where its number is outside 1 to 64 or already held.
    fn put(&mut self, e: Entry) -> bool
        requires { ok self.old }
        ensures answer { result ≡ free (held self.old) e.number }
        ensures list { held self.new ≡ put_in (held self.old) e }
        ensures memory { ok self.new };

    // Removes the entry of a number; yes exactly where there was one.
    fn take_out(&mut self, number: u32) -> bool
        requires { ok self.old }
        ensures answer { result ≡ holds (held self.old) number }
        ensures list { held self.new ≡ taken_out (held self.old) number }
        ensures memory { ok self.new };

    // The entry that the list's order puts before all others; none exactly where nothing is held.
    fn first(&self) -> Option<Entry>
        requires { ok self.now }
        ensures value { result ≡ first_of Self.Order.TieOrder.before (held self.now) }
        ensures least { Least Self.Order.TieOrder.before (held self.now) result };

    // 64 slots, each entry in the slot of its number
    ghost slotted: { (l : Self) → ok l → Slotted (held l) };
}
