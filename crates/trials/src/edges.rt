// Short inputs at the edges: where each fault is told, which fault comes first, what a turn may last and who has it.
use crate::plays::{Case, over_table};
use std::test::Fail;

// Worked out by hand.
const EDGES: [Case; 83] = [
    // The length of the sheet.
    Case {
        input: b"",
        lines: "0 0 no 1 1 0\n",
    },
    Case {
        input: b"\x00",
        lines: "0 0 ok 0\n",
    },
    Case {
        input: b"\x80",
        lines: "0 0 no 1 1 0\n",
    },
    Case {
        input: b"\x80\x00",
        lines: "0 0 no 2 1 0\n",
    },
    Case {
        input: b"\x81\x00\x08\x00",
        lines: "0 0 no 2 1 0\n",
    },
    Case {
        input: b"\xff\xff\xff",
        lines: "0 0 no 1 1 0\n",
    },
    Case {
        input: b"\x80\x80\x80\x00",
        lines: "0 0 no 2 1 0\n",
    },
    Case {
        input: b"\x80\x80\x80\x80",
        lines: "0 0 no 2 1 0\n",
    },
    Case {
        input: b"\xff\xff\xff\x7f",
        lines: "0 0 no 1 1 0\n",
    },
    Case {
        input: b"\x01",
        lines: "0 0 no 1 1 0\n",
    },
    Case {
        input: b"\x0f\x01\x01\xf4\x03\x0a\x01\x41\x01\x02\xfa\x01\x08\x01\x42",
        lines: "0 0 no 1 1 0\n",
    },
    // Numbers of a record, cut or malformed.
    Case {
        input: b"\x01\x01",
        lines: "0 0 no 1 1 1\n",
    },
    Case {
        input: b"\x03\x01\x01\xf4",
        lines: "0 0 no 1 1 2\n",
    },
    Case {
        input: b"\x04\x01\x01\xf4\x03",
        lines: "0 0 no 1 1 4\n",
    },
    Case {
        input: b"\x05\x01\x01\xf4\x03\x0a",
        lines: "0 0 no 1 1 5\n",
    },
    Case {
        input: b"\x01\x02",
        lines: "0 0 no 1 1 1\n",
    },
    Case {
        input: b"\x08\x01\x01\xf4\x03\x0a\x01\x41\x01",
        lines: "0 0 no 1 1 8\n",
    },
    Case {
        input: b"\x03\x02\x81\x00",
        lines: "0 0 no 2 1 1\n",
    },
    Case {
        input: b"\x06\x01\x01\xff\xff\xff\xff",
        lines: "0 0 no 2 1 2\n",
    },
    Case {
        input: b"\x0a\x01\x01\xf4\x03\x80\x80\x80\x00\x01\x41",
        lines: "0 0 no 2 1 4\n",
    },
    // Kinds, names and notes.
    Case {
        input: b"\x01\x00",
        lines: "0 0 no 3 2 0\n",
    },
    Case {
        input: b"\x03\x02\x00\x03",
        lines: "0 0 no 3 2 2\n",
    },
    Case {
        input: b"\x07\x01\x01\xf4\x03\x0a\x02\x41",
        lines: "0 0 no 1 2 5\n",
    },
    Case {
        input: b"\x04\x02\x03\x61\x62",
        lines: "0 0 no 1 2 1\n",
    },
    Case {
        input: b"\x06\x01\x01\xf4\x03\x0a\x00",
        lines: "0 0 no 4 2 5\n",
    },
    Case {
        input: b"\x06\x01\x01\xf4\x03\x0a\x0d",
        lines: "0 0 no 4 2 5\n",
    },
    Case {
        input: b"\x13\x01\x01\xf4\x03\x0a\x0d\x41\x41\x41\x41\x41\x41\x41\x41\x41\x41\x41\x41\x41",
        lines: "0 0 no 4 2 5\n",
    },
    Case {
        input: b"\x12\x01\x01\xf4\x03\x0a\x0c\x41\x41\x41\x41\x41\x41\x41\x41\x41\x41\x41\x41",
        lines: "0 0 ok 1\n",
    },
    Case {
        input: b"\x08\x01\x01\xf4\x03\x0a\x02\x21\x7e",
        lines: "0 0 ok 1\n",
    },
    Case {
        input: b"\x08\x01\x01\xf4\x03\x0a\x02\x41\x20",
        lines: "0 0 no 4 2 7\n",
    },
    Case {
        input: b"\x08\x01\x01\xf4\x03\x0a\x02\x7f\x41",
        lines: "0 0 no 4 2 6\n",
    },
    Case {
        input: b"\x08\x01\x01\xf4\x03\x0a\x0c\x41\x7f",
        lines: "0 0 no 4 2 7\n",
    },
    Case {
        input: b"\x02\x02\x51",
        lines: "0 0 no 4 2 1\n",
    },
    Case {
        input: b"\x53\x02\x51\x61\x61\x61\x61\x61\x61\x61\x61\x61\x61\x61\x61\x61\x61\x61\x61\x61\x61\x61\x61\x61\x61\x61\x61\x61\x61\x61\x61\x61\x61\x61\x61\x61\x61\x61\x61\x61\x61\x61\x61\x61\x61\x61\x61\x61\x61\x61\x61\x61\x61\x61\x61\x61\x61\x61\x61\x61\x61\x61\x61\x61\x61\x61\x61\x61\x61\x61\x61\x61\x61\x61\x61\x61\x61\x61\x61\x61\x61\x61\x61\x61",
        lines: "0 0 no 4 2 1\n",
    },
    Case {
        input: b"\x52\x02\x50\x00\xff\x00\xff\x00\xff\x00\xff\x00\xff\x00\xff\x00\xff\x00\xff\x00\xff\x00\xff\x00\xff\x00\xff\x00\xff\x00\xff\x00\xff\x00\xff\x00\xff\x00\xff\x00\xff\x00\xff\x00\xff\x00\xff\x00\xff\x00\xff\x00\xff\x00\xff\x00\xff\x00\xff\x00\xff\x00\xff\x00\xff\x00\xff\x00\xff\x00\xff\x00\xff\x00\xff\x00\xff\x00\xff\x00\xff\x00\xff",
        lines: "0 0 ok 0\n",
    },
    Case {
        input: b"\x51\x02\x50\x61\x61\x61\x61\x61\x61\x61\x61\x61\x61\x61\x61\x61\x61\x61\x61\x61\x61\x61\x61\x61\x61\x61\x61\x61\x61\x61\x61\x61\x61\x61\x61\x61\x61\x61\x61\x61\x61\x61\x61\x61\x61\x61\x61\x61\x61\x61\x61\x61\x61\x61\x61\x61\x61\x61\x61\x61\x61\x61\x61\x61\x61\x61\x61\x61\x61\x61\x61\x61\x61\x61\x61\x61\x61\x61\x61\x61\x61\x61",
        lines: "0 0 no 1 2 1\n",
    },
    Case {
        input: b"\x02\x02\x00",
        lines: "0 0 ok 0\n",
    },
    // Values that the table refuses.
    Case {
        input: b"\x07\x01\x00\xf4\x03\x0a\x01\x41",
        lines: "0 0 no 5 3 1\n",
    },
    Case {
        input: b"\x07\x01\x41\xf4\x03\x0a\x01\x41",
        lines: "0 0 no 5 3 1\n",
    },
    Case {
        input: b"\x08\x01\x81\x02\xf4\x03\x0a\x01\x41",
        lines: "0 0 no 5 3 1\n",
    },
    Case {
        input: b"\x0a\x01\xff\xff\xff\x7f\xf4\x03\x0a\x01\x41",
        lines: "0 0 no 5 3 1\n",
    },
    Case {
        input: b"\x07\x01\x40\xf4\x03\x0a\x01\x41",
        lines: "0 0 ok 1\n",
    },
    Case {
        input: b"\x0e\x01\x01\xf4\x03\x0a\x01\x41\x01\x01\xfa\x01\x08\x01\x42",
        lines: "0 0 no 6 3 8\n",
    },
    Case {
        input: b"\x06\x01\x01\x00\x0a\x01\x41",
        lines: "0 0 no 9 3 2\n",
    },
    Case {
        input: b"\x07\x01\x01\xe9\x07\x0a\x01\x41",
        lines: "0 0 no 9 3 2\n",
    },
    Case {
        input: b"\x07\x01\x01\xe8\x07\x0a\x01\x41",
        lines: "0 0 ok 1\n",
    },
    Case {
        input: b"\x07\x01\x01\xf4\x03\x00\x01\x41",
        lines: "0 0 no 10 3 4\n",
    },
    Case {
        input: b"\x09\x01\x01\xf4\x03\xc1\x84\x3d\x01\x41",
        lines: "0 0 no 10 3 4\n",
    },
    Case {
        input: b"\x09\x01\x01\xf4\x03\xc0\x84\x3d\x01\x41",
        lines: "0 0 ok 1\n",
    },
    Case {
        input: b"\x07\x01\x01\x01\xe7\x07\x01\x41",
        lines: "0 0 no 11 3 3\n",
    },
    Case {
        input: b"\x07\x01\x01\x01\xe8\x07\x01\x41",
        lines: "0 0 ok 1\n",
    },
    Case {
        input: b"\x0e\x01\x01\xf4\x03\x0a\x01\x41\x01\x02\xf5\x03\x0a\x01\x42",
        lines: "0 0 no 12 3 9\n",
    },
    Case {
        input: b"\x0e\x01\x01\xf4\x03\x0a\x01\x41\x01\x02\xf4\x03\x0a\x01\x42",
        lines: "0 0 ok 2\n",
    },
    // Which fault comes first.
    Case {
        input: b"\x08\x01\x00\xf4\x03\x0a\x01\x41\x03",
        lines: "0 0 no 5 3 1\n",
    },
    Case {
        input: b"\x07\x01\x00\xf4\x03\x0a\x01\x20",
        lines: "0 0 no 4 2 6\n",
    },
    Case {
        input: b"\x06\x01\x00\x00\x00\x01\x41",
        lines: "0 0 no 5 3 1\n",
    },
    Case {
        input: b"\x0d\x01\x01\xf4\x03\x0a\x01\x41\x01\x01\x00\x00\x01\x41",
        lines: "0 0 no 6 3 8\n",
    },
    Case {
        input: b"\x06\x01\x01\x00\x00\x01\x41",
        lines: "0 0 no 9 3 2\n",
    },
    Case {
        input: b"\x06\x01\x01\x01\x00\x01\x41",
        lines: "0 0 no 10 3 3\n",
    },
    Case {
        input: b"\x0d\x01\x01\xe8\x07\x01\x01\x41\x01\x02\x01\x01\x01\x42",
        lines: "0 0 no 11 3 10\n",
    },
    Case {
        input: b"\x13\x02\x01\x00\x01\x01\xf4\x03\x0a\x01\x41\x02\x00\x01\x02\xe8\x07\x01\x01\x42",
        lines: "0 0 no 12 3 14\n",
    },
    // Bad call records: the code before the numbers, and nothing after them.
    Case {
        input: b"\x00\x00",
        lines: "0 0 ok 0\n0 0 no 3\n",
    },
    Case {
        input: b"\x00\x09",
        lines: "0 0 ok 0\n0 9 no 3\n",
    },
    Case {
        input: b"\x00\xff\x80\x00",
        lines: "0 0 ok 0\n0 255 no 3\n",
    },
    Case {
        input: b"\x00\x08",
        lines: "0 0 ok 0\n0 8 no 1\n",
    },
    Case {
        input: b"\x00\x08\x80",
        lines: "0 0 ok 0\n0 8 no 1\n",
    },
    Case {
        input: b"\x00\x08\x80\x00",
        lines: "0 0 ok 0\n0 8 no 2\n",
    },
    Case {
        input: b"\x00\x08\x80\x80\x80\x80",
        lines: "0 0 ok 0\n0 8 no 2\n",
    },
    Case {
        input: b"\x00\x08\x05\x09\x08\x01",
        lines: "0 0 ok 0\n5 8 run 0\n5 9 no 3\n",
    },
    Case {
        input: b"\x00\x08\x05\x08",
        lines: "0 0 ok 0\n5 8 run 0\n5 8 no 1\n",
    },
    // Idle turns.
    Case {
        input: b"\x00\x08\x00\x08\x05",
        lines: "0 0 ok 0\n0 8 run 0\n5 8 run 0\n",
    },
    Case {
        input: b"\x00\x08\x80\x80\x80\x01",
        lines: "0 0 ok 0\n2097152 8 run 0\n",
    },
    Case {
        input: b"\x00\x08\xff\xff\xff\x7f",
        lines: "0 0 ok 0\n268435455 8 run 0\n",
    },
    // Counts of 0 and above the length; ticks used up; the next job.
    Case {
        input: b"\x07\x01\x01\xf4\x03\x0a\x01\x41\x08\x00\x08\x06\x08\x05\x08\x00\x08\x06\x08\x05\x08\x01",
        lines: "0 0 ok 1\n0 8 run 1\n0 8 no 16\n5 8 run 1\n5 8 run 0\n5 8 no 16\n10 8 run 0\n11 8 run 1\n",
    },
    Case {
        input: b"\x07\x01\x01\xf4\x03\x0a\x01\x41\x08\x81\x02\x08\x03",
        lines: "0 0 ok 1\n0 8 no 16\n3 8 run 1\n",
    },
    Case {
        input: b"\x07\x01\x01\xf4\x03\x0a\x01\x41\x08\x02\x08\x04\x08\x03",
        lines: "0 0 ok 1\n2 8 run 1\n2 8 no 16\n5 8 run 1\n",
    },
    // A turn ends at the nearest deadline of any task.
    Case {
        input: b"\x0e\x01\x01\xf4\x03\x0a\x01\x41\x01\x02\xfa\x01\x08\x01\x42\x08\x02\x08\x03\x08\x03\x08\x02\x08\x01\x08\x02\x08\x05",
        lines: "0 0 ok 2\n2 8 run 2\n5 8 run 1\n5 8 no 16\n7 8 run 1\n8 8 run 0\n10 8 run 2\n15 8 run 1\n",
    },
    Case {
        input: b"\x0e\x01\x01\xf4\x03\x0a\x01\x41\x01\x02\xfa\x01\x04\x01\x42\x08\x01\x08\x04\x08\x03\x08\x01\x08\x02\x08\x01\x08\x01\x08\x01",
        lines: "0 0 ok 2\n1 8 run 2\n1 8 no 16\n4 8 run 1\n5 8 run 2\n7 8 run 1\n8 8 run 0\n9 8 run 2\n10 8 run 0\n",
    },
    // Equal deadlines: the lower number, whatever the sheet lists first and whatever the rates.
    Case {
        input: b"\x0e\x01\x02\xf4\x03\x08\x01\x41\x01\x01\xfa\x01\x08\x01\x42\x08\x02\x08\x04\x08\x02\x08\x01",
        lines: "0 0 ok 2\n2 8 run 1\n6 8 run 2\n8 8 run 0\n9 8 run 1\n",
    },
    Case {
        input: b"\x0e\x01\x40\xf4\x03\x04\x01\x41\x01\x3f\xfa\x01\x04\x01\x42\x08\x01\x08\x01\x08\x01\x08\x01",
        lines: "0 0 ok 2\n1 8 run 63\n2 8 run 64\n3 8 run 64\n4 8 run 0\n",
    },
    // The whole processor, the longest period, the least rate.
    Case {
        input: b"\x07\x01\x01\xe8\x07\x01\x01\x41\x08\x01\x08\x02\x08\x01",
        lines: "0 0 ok 1\n1 8 run 1\n1 8 no 16\n2 8 run 1\n",
    },
    Case {
        input: b"\x09\x01\x01\xe8\x07\xc0\x84\x3d\x01\x41\x08\xc1\x84\x3d\x08\xc0\x84\x3d\x08\x01",
        lines: "0 0 ok 1\n0 8 no 16\n1000000 8 run 1\n1000001 8 run 1\n",
    },
    Case {
        input: b"\x07\x01\x01\x01\xe8\x07\x01\x41\x08\x02\x08\x01\x08\xe7\x07\x08\x01",
        lines: "0 0 ok 1\n0 8 no 16\n1 8 run 1\n1000 8 run 0\n1001 8 run 1\n",
    },
];

#[test]
fn edges(rt: HostRuntime) -> Result<(), Fail> {
    for case in EDGES.iter() {
        over_table(&rt, case.input, case.lines)?;
    }
    Ok(())
}
