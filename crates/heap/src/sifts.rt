// Sifting: an entry is to stand in a hole of the tree, and moves along a path until it may.
// The entries on the way are pulled over the hole, and the moved one is written once, at the end.
ghost use Rattle.std.specs.Prelude.{◌≡◌, ◌<◌, true};
ghost use Rattle.heap.specs.Sifts.{Holed, child_of, next_place, rises_to, sinks_to};
ghost use Rattle.heap.specs.Sound.{Sound, above, entry_in, held_in, laid};
ghost use Rattle.ready.specs.Held.{free, put_in, taken_out};

use crate::memory::Tree;
use order::entries::Entry;
use order::ties::TieOrder;

// The place above, for all but the root.
fn parent(place: usize) -> Option<usize>
    ensures { result ≡ above place }
{
    place.checked_sub(1).map(|rest| rest / 2)
}

// The hole and the entry stay two parameters: a struct of them would be taken apart at each look at the tree.
impl Tree {
    // The place above the hole, where the entry comes before what stands there.
    fn rises<O: TieOrder>(&self, hole: usize, e: Entry) -> Option<usize>
        requires { hole < 64 }
        ensures { result ≡ rises_to O.TieOrder.before self.now hole e }
    {
        parent(hole).filter(|above| O::comes_before(e, self.entry(*above)))
    }

    // The child that comes first, of a place that has one.
    fn first_child<O: TieOrder>(&self, hole: usize) -> Option<usize>
        requires { hole < 64 }
        ensures { result ≡ child_of O.TieOrder.before self.now hole }
    {
        let left = 2 * hole + 1;
        let right = left + 1;
        if left >= self.len {
            return None;
        }
        if right < self.len && O::comes_before(self.entry(right), self.entry(left)) {
            Some(right)
        } else {
            Some(left)
        }
    }

    // The first child of the hole, where it comes before the entry.
    fn sinks<O: TieOrder>(&self, hole: usize, e: Entry) -> Option<usize>
        requires { hole < 64 }
        ensures { result ≡ sinks_to O.TieOrder.before self.now hole e }
    {
        self.first_child::<O>(hole)
            .filter(|child| O::comes_before(self.entry(*child), e))
    }

    // The place that the hole is to move to, unless the entry may stand in it.
    fn next<O: TieOrder>(&self, hole: usize, e: Entry) -> Option<usize>
        requires { hole < 64 }
        ensures { result ≡ next_place O.TieOrder.before self.now hole e }
    {
        self.rises::<O>(hole, e)
            .or_else(|| self.sinks::<O>(hole, e))
    }

    // In the three methods below `Sound` is no part of the type `Tree`: it depends on the order, which the tree does not know.

    // Lays the entry where it belongs on the way from the root over the place to a leaf.
    fn settle<O: TieOrder>(&mut self, place: usize, e: Entry)
        requires { Holed O.TieOrder.before (held_in (laid self.old place e)) (laid self.old place e) place }
        ensures list { held_in self.new ≡ held_in (laid self.old place e) }
        ensures memory { Sound O.TieOrder.before self.new }
    {
        let mut hole = place;
        let mut next = self.next::<O>(hole, e);
        // what rose comes before all below it, and what sank after the one above it: there is one way on, and only that is looked at
        let up = next.is_some_and(|to| to < place);
        while let Some(to) = next {
            self.lay(hole, self.entry(to));
            hole = to;
            next = if up {
                self.rises::<O>(hole, e)
            } else {
                self.sinks::<O>(hole, e)
            };
        }
        self.lay(hole, e);
    }

    // Adds an entry of a number that is not held.
    pub fn push<O: TieOrder>(&mut self, e: Entry)
        requires memory { Sound O.TieOrder.before self.old }
        requires free { free (held_in self.old) e.number ≡ true }
        ensures list { held_in self.new ≡ put_in (held_in self.old) e }
        ensures memory { Sound O.TieOrder.before self.new }
    {
        let place = self.len;
        self.len += 1;
        self.settle::<O>(place, e);
    }

    // Removes the entry at a place.
    pub fn remove<O: TieOrder>(&mut self, place: usize)
        requires memory { Sound O.TieOrder.before self.old }
        requires within { place < self.old.len }
        ensures list { held_in self.new ≡ taken_out (held_in self.old) (entry_in self.old place).number }
        ensures memory { Sound O.TieOrder.before self.new }
    {
        self.len -= 1;
        // the last entry fills the place, unless it is the one to go
        if place < self.len {
            let last = self.entry(self.len);
            self.settle::<O>(place, last);
        }
    }
}
