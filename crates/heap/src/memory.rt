// The memory of the heap: a binary tree laid out in an array, and an index of it by task number.
ghost use Rattle.std.specs.Prelude.{◌≡◌, ◌<◌, ◌≤◌, true, length, is_some, IfSome};
ghost use Rattle.order.specs.Orders.{in_range};
ghost use Rattle.ready.specs.Held.{holds};

use order::entries::{Entry, slot_of};

// Place 0 is the root; the children of place p are the places 2p + 1 and 2p + 2. What stands at
// places from `len` on, and what the index says of a number that is not held, has no meaning.
// Two arrays of fixed size, since no heap may be used: one goes by place, the other by number. A vector of fixed capacity (`arrayvec`) would save the count alone.
// A place is a plain number, asked to be below 64: it is halved and doubled at each step, and a type of its own would be left each time.
#[derive(Drop)]
pub struct Tree {
    pub(crate) entries: [Entry; 64],
    pub(crate) places: [usize; 64],
    pub(crate) len: usize,
    ghost room: { len ≤ 64 },
}

impl Tree {
    ghost use Rattle.heap.specs.Sound.{IsPlaceOf, Stands, entry_in, held_in, laid, root_of};

    // A tree without entries.
    pub fn new() -> Tree
        ensures entries { length result.entries ≡ 64 }
        ensures places { length result.places ≡ 64 }
        ensures len { result.len ≡ 0 }
    {
        let blank = Entry {
            number: 0,
            deadline: 0,
            rate: 0,
        };
        Tree {
            entries: [blank; 64],
            places: [0; 64],
            len: 0,
        }
    }

    // The entry at a place.
    pub fn entry(&self, place: usize) -> Entry
        requires { place < 64 }
        ensures { result ≡ entry_in self.now place }
    {
        self.entries[place]
    }

    // The entry at the root, if there is one.
    pub fn root(&self) -> Option<Entry>
        ensures { result ≡ root_of self.now }
    {
        (self.len > 0).then(|| self.entry(0))
    }

    // The place of a number's entry, if the tree holds one. The index may note anything for a number
    // that is not held, so what it notes is looked at.
    pub fn place_of(&self, number: u32) -> Option<usize>
        requires { Stands self.now (held_in self.now) }
        ensures found { is_some result ≡ holds (held_in self.now) number }
        ensures place { IfSome result (IsPlaceOf self.now number) }
    {
        let place = self.places[slot_of(number)?];
        (place < self.len && self.entry(place).number == number).then_some(place)
    }

    // Lays an entry at a place, and notes the place under the entry's number, which is asked to be a task number and no type of its own:
    // an entry has it as a plain one, since `put` answers any.
    pub fn lay(&mut self, place: usize, e: Entry)
        requires within { place < 64 }
        requires number { in_range e.number ≡ true }
        ensures { self.new ≡ laid self.old place e }
    {
        self.entries[place] = e;
        // no `slot_of`: what it asks is known here, and would be asked once more for each entry that moves
        self.places[(e.number - 1) as usize] = place;
    }
}
