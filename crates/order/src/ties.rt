// Tie orders: which of two entries comes first. The earlier deadline always does;
// an order only decides between equal deadlines.
ghost use Rattle.std.specs.Prelude.{Bool, ◌≡◌};
ghost use Rattle.order.specs.declared.entries.Entry.{Entry};
ghost use Rattle.order.specs.Orders.{Lawful, by_number, by_rate};
ghost use Rattle.std.proofs.Common.{rules};

use crate::entries::Entry;
use std::cmp::Reverse;

// An order on entries of different numbers.
pub trait TieOrder {
    // `before a b`: a is served before b
    ghost before: { Entry → Entry → Bool };

    fn comes_before(a: Entry, b: Entry) -> bool
        ensures { result ≡ before a b };

    // of two entries exactly one comes first, orders chain, the earlier deadline comes first
    ghost lawful: { Lawful before };
}

// Ties go to the lower number.
#[derive(Clone, Copy, PartialEq, Eq, Debug, Default)]
pub struct ByNumber;

impl TieOrder for ByNumber {
    ghost before = { by_number };

    ghost lawful = { Prim.search rules };

    fn comes_before(a: Entry, b: Entry) -> bool {
        (a.deadline, a.number) < (b.deadline, b.number)
    }
}

// Ties go to the higher rate, and of equal rates to the lower number.
#[derive(Clone, Copy, PartialEq, Eq, Debug, Default)]
pub struct ByRate;

impl TieOrder for ByRate {
    ghost before = { by_rate };

    ghost lawful = { Prim.search rules };

    fn comes_before(a: Entry, b: Entry) -> bool {
        (a.deadline, Reverse(a.rate), a.number) < (b.deadline, Reverse(b.rate), b.number)
    }
}
