// Inputs with the lines that two independent readings of the rules agreed on, those with turns alone.
use crate::plays::{Case, over_table};
use std::test::Fail;

// The order is by number.
const RECORDED: [Case; 23] = [
    Case {
        input: b"",
        lines: "0 0 no 1 1 0\n",
    },
    Case {
        input: b"\x00",
        lines: "0 0 ok 0\n",
    },
    Case {
        input: b"\xc7\x00",
        lines: "0 0 no 2 1 0\n",
    },
    Case {
        input: b"\x02\x80\x80",
        lines: "0 0 no 3 2 0\n",
    },
    Case {
        input: b"\x00\x08\xff\xff\xff\x7f",
        lines: "0 0 ok 0\n268435455 8 run 0\n",
    },
    Case {
        input: b"\x07\x01\x0d\x80\x07\x10\xda\x25",
        lines: "0 0 no 4 2 5\n",
    },
    Case {
        input: b"\x06\x01\x05\x07\x09\x01\x49\x08\x01\x08\x01",
        lines: "0 0 no 11 3 3\n",
    },
    Case {
        input: b"\x0a\x01\x00\x00\x01\x04\x65\x64\x67\x65\x03\x08\x01",
        lines: "0 0 no 5 3 1\n",
    },
    Case {
        input: b"\x00\x08\xac\x81\x00\x08\x01\x08\x1d\x02\x1b\x02\x07\x16",
        lines: "0 0 ok 0\n0 8 no 2\n",
    },
    Case {
        input: b"\x0e\x01\x10\xa9\x03\x28\x01\x29\x01\x2a\xfb\x13\x11\x01\x65",
        lines: "0 0 no 9 3 9\n",
    },
    Case {
        input: b"\x0e\x01\x36\x90\x03\x0c\x01\x7a\x01\x36\x90\x03\x0c\x01\x7a",
        lines: "0 0 no 6 3 8\n",
    },
    Case {
        input: b"\x10\x01\x01\x7d\x18\x04\x7e\x43\x43\x7e\x01\x04\xe8\x07\x01\x01\x7e",
        lines: "0 0 no 12 3 11\n",
    },
    Case {
        input: b"\x14\x01\x0a\xe8\x07\x12\x02\x45\x41\x01\x40\x01\xff\xff\xff\x7f\x04\x65\x64\x67\x65\x08\x01\x08\x01",
        lines: "0 0 no 10 3 11\n",
    },
    Case {
        input: b"\x02",
        lines: "0 0 no 1 1 0\n",
    },
    Case {
        input: b"\x80\x00",
        lines: "0 0 no 2 1 0\n",
    },
    Case {
        input: b"\x03\x80\x80\x80",
        lines: "0 0 no 3 2 0\n",
    },
    Case {
        input: b"\x08\x01\xe8\x07\xd1\x0f\x02\x23\x79",
        lines: "0 0 no 4 2 6\n",
    },
    Case {
        input: b"\x0e\x01\x1f\xac\x02\x04\x01\x21\x01\x7f\xa7\x01\x0a\x01\x21",
        lines: "0 0 no 5 3 8\n",
    },
    Case {
        input: b"\x0e\x01\x3e\xaf\x02\x07\x01\x22\x01\x16\xbb\x35\x08\x01\x65\x08\x01",
        lines: "0 0 no 9 3 9\n",
    },
    Case {
        input: b"\x11\x01\x02\x07\x22\x0c\x77\x79\x68\x44\x3d\x69\x53\x73\x71\x2d\x74\x56",
        lines: "0 0 no 11 3 3\n",
    },
    Case {
        input: b"\x11\x01\x10\xe8\x07\x1a\x01\x33\x01\x01\x01\xe8\x07\x04\x65\x64\x67\x65\x08\x01",
        lines: "0 0 no 12 3 9\n",
    },
    Case {
        input: b"\x19\x01\x26\xf3\x03\x12\x02\x43\x42\x01\x34\xf5\x03\xcf\x0f\x02\x7e\x3f\x01\x26\xf3\x03\x12\x02\x43\x42",
        lines: "0 0 no 6 3 18\n",
    },
    Case {
        input: b"\x16\x01\x2c\xa9\x03\x03\x03\x2c\x2e\x4a\x01\x40\xe8\x07\xc1\x84\x3d\x04\x65\x64\x67\x65\x03\x08\x01\x08\x01",
        lines: "0 0 no 10 3 13\n",
    },
];

#[test]
fn recorded(rt: HostRuntime) -> Result<(), Fail> {
    for case in RECORDED.iter() {
        over_table(&rt, case.input, case.lines)?;
    }
    Ok(())
}
