// The one writer of tasks: it keeps the table and the ready list together.
// Memory and list stay two parameters with their tie in each contract: both are lent to every call, by a rule of the project,
// and a struct of two `&mut` could not keep the tie as its own, since it is false between the write of the one and of the other.
ghost use Rattle.std.specs.Prelude.{◌≡◌, ◌-◌, true, slice_set};
ghost use Rattle.controller.specs.Tasks.{Fits, InSlot, Mirrored, no_tasks};
ghost use Rattle.controller.specs.Tied.{TiedTo};
ghost use Rattle.order.specs.Orders.{in_range};
ghost use Rattle.ready.specs.Held.{entry_at};
ghost use Rattle.rules.specs.Tasks.{entry_of};

use crate::memory::TaskMemory;
use order::entries::{Entry, slot_of};
use ready::ReadyList;
use rules::tasks::{Task, entry_of};

// Puts what a slot's entry is now in the place of what it was. Numbers stay plain here and below, and are asked to be task numbers: an entry has
// a plain one, since `put` answers any, and a type of task numbers would be made at each call and left at each entry.
fn relist<L: ReadyList>(list: &mut L, number: u32, was: Option<Entry>, is: Option<Entry>)
    requires range { in_range number ≡ true }
    requires held { entry_at (L.ReadyList.held list.old) number ≡ was }
    requires fits { Fits number is }
    requires memory { L.ReadyList.ok list.old }
    ensures list { L.ReadyList.held list.new ≡ slice_set (L.ReadyList.held list.old) (number - 1) is }
    ensures memory { L.ReadyList.ok list.new }
{
    // then the list need not be touched
    if was == is {
        return;
    }
    let _ = list.take_out(number);
    if let Some(e) = is {
        let _ = list.put(e);
    }
}

// Writes the slot of a number: the only function that writes one.
pub(crate) fn rewrite<L: ReadyList>(
    slot: &mut Option<Task>,
    list: &mut L,
    number: u32,
    new: Option<Task>,
)
    requires range { in_range number ≡ true }
    requires held { entry_at (L.ReadyList.held list.old) number ≡ entry_of slot.old }
    requires fits { InSlot (number - 1) new }
    requires memory { L.ReadyList.ok list.old }
    ensures slot { slot.new ≡ new }
    ensures list { L.ReadyList.held list.new ≡ slice_set (L.ReadyList.held list.old) (number - 1) (entry_of new) }
    ensures memory { L.ReadyList.ok list.new }
{
    relist(list, number, entry_of(*slot), entry_of(new));
    *slot = new;
}

impl TaskMemory {
    // Writes the slot of a number.
    pub(crate) fn store<L: ReadyList>(&mut self, list: &mut L, number: u32, new: Option<Task>)
        requires range { in_range number ≡ true }
        requires fits { InSlot (number - 1) new }
        requires mirrored { Mirrored L.ReadyList self.old list.old }
        ensures tasks { self.new ≡ slice_set self.old (number - 1) new }
        ensures mirrored { Mirrored L.ReadyList self.new list.new }
    {
        let place = slot_of(number).unwrap();
        rewrite(&mut self.slots[place], list, number, new);
    }

    // Leaves no task and an empty list, whatever the memory held before.
    pub(crate) fn clear<L: ReadyList>(&mut self, list: &mut L)
        ensures tasks { self.new ≡ no_tasks }
        ensures tied { TiedTo L.ReadyList 0 self.new list.new }
    {
        self.slots = [None; 64];
        list.empty();
    }
}
