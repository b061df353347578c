// Rehearsals of the changes under way, and of ties, over both lists.
use crate::plays::{Case, over_both};
use order::ties::{ByNumber, ByRate};
use std::test::Fail;

// Worked out by hand from the rules.
const CHANGES: [Case; 4] = [
    // Lowering by what was run over the time since release would free parts that are not there: refused.
    Case {
        input: b"\x0e\x01\x01\xf4\x03\x0a\x01A\x01\x02\xf4\x03\x0a\x01B\x08\x05\x02\x01\xfa\x01",
        lines: "0 0 ok 2\n5 8 run 1\n5 2 no 13\n",
    },
    // A raise one tick before the deadline gives no tick for thousandths that rounding took: both tasks stay without one.
    Case {
        input: b"\x0e\x01\x01\x01\xcf\x0f\x01A\x01\x02\x01\xcf\x0f\x01B\x08\x01\x08\x01\x08\xcc\x0f\x02\x01\x02\x02\x02\x02\x08\x01",
        lines: "0 0 ok 2\n1 8 run 1\n2 8 run 2\n1998 8 run 0\n1998 2 ok 0\n1998 2 ok 0\n1999 8 run 0\n",
    },
    // A task that wakes late keeps 2 of its 5 ticks, and the other has its 3 by 12.
    Case {
        input: b"\x0e\x01\x01\xf4\x03\x0a\x01A\x01\x02\xf4\x03\x06\x01B\x04\x01\x08\x03\x08\x03\x05\x01\x08\x02\x08\x02\x08\x01",
        lines: "0 0 ok 2\n0 4 ok 0\n3 8 run 2\n6 8 run 0\n6 5 ok 0\n8 8 run 1\n10 8 run 2\n11 8 run 2\n",
    },
    // Rate 1 wants a period of 1000 for its one tick.
    Case {
        input: b"\x00\x01\x01\x01\xe7\x07\x01\x01\x01\xe8\x07\x08\x02\x08\x01",
        lines: "0 0 ok 0\n0 1 no 11\n0 1 ok 0\n0 8 no 16\n1 8 run 1\n",
    },
];

#[test]
fn changes_over_both_lists(rt: HostRuntime) -> Result<(), Fail> {
    for case in CHANGES.iter() {
        over_both(&rt, case.input, case.lines, ByNumber)?;
    }
    Ok(())
}

// Tasks 1 and 2 have one deadline, and task 2 the higher rate.
const TIED: &[u8] = b"\x0d\x01\x01\x64\x0a\x01A\x01\x02\xac\x02\x0a\x01B\x08\x01\x08\x03";

const NUMBER_FIRST: &str = "0 0 ok 2\n1 8 run 1\n4 8 run 2\n";

const RATE_FIRST: &str = "0 0 ok 2\n1 8 run 2\n1 8 no 16\n";

#[test]
fn ties_tell_the_orders_apart(rt: HostRuntime) -> Result<(), Fail> {
    over_both(&rt, TIED, NUMBER_FIRST, ByNumber)?;
    over_both(&rt, TIED, RATE_FIRST, ByRate)
}
