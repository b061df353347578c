// Long inputs, built in a loop: a full table, the clock's last tick, and the most that is read.
use crate::plays::over_table;
use std::alloc::{AllocError, Global};
use std::test::Fail;

// Adds the bytes to the input so many times.
fn repeat(input: &mut Vec<u8>, bytes: &[u8], times: usize) -> Result<(), AllocError> {
    for _ in 0..times {
        input.extend_from_slice(bytes)?;
    }
    Ok(())
}

// The tasks 1 to 64 behind the sheet's length, each of 15 parts and period 67, which is one tick.
fn full_sheet(heap: Global, length: &[u8]) -> Result<Vec<u8>, AllocError> {
    let mut input = Vec::new(heap);
    input.extend_from_slice(length)?;
    for number in 1..65u8 {
        input.extend_from_slice(&[1, number, 15, 67, 1, b'A'])?;
    }
    Ok(input)
}

// All 64 deadlines are equal: each task has its tick in the order of the numbers, then nobody to the deadline.
#[test]
fn full_table(rt: HostRuntime) -> Result<(), Fail> {
    let mut input = full_sheet(rt.alloc(), b"\x80\x03")?;
    repeat(&mut input, b"\x08\x01", 64)?;
    input.extend_from_slice(b"\x08\x04\x08\x03\x08\x01")?;
    let mut lines = String::from_str(rt.alloc(), "0 0 ok 64\n")?;
    for number in 1..65u8 {
        write!(lines, "{number} 8 run {number}\n")?;
    }
    lines.push_str("64 8 no 16\n67 8 run 0\n68 8 run 1\n")?;
    over_table(&rt, input.as_slice(), lines.as_str())
}

// A 65th task has a number out of range, or one that is taken.
#[test]
fn over_full_table(rt: HostRuntime) -> Result<(), Fail> {
    let mut unknown = full_sheet(rt.alloc(), b"\x86\x03")?;
    unknown.extend_from_slice(&[1, 65, 15, 67, 1, b'A'])?;
    over_table(&rt, unknown.as_slice(), "0 0 no 5 3 385\n")?;
    let mut taken = full_sheet(rt.alloc(), b"\x86\x03")?;
    taken.extend_from_slice(&[1, 64, 15, 67, 1, b'A'])?;
    over_table(&rt, taken.as_slice(), "0 0 no 6 3 385\n")
}

// 4,096 turns of the longest count and one of 4,096 ticks come to the clock 2^40, where no turn begins.
#[test]
fn last_tick(rt: HostRuntime) -> Result<(), Fail> {
    let mut input = Vec::new(rt.alloc());
    input.push(0)?;
    repeat(&mut input, b"\x08\xff\xff\xff\x7f", 4096)?;
    input.extend_from_slice(b"\x08\x81\x20\x08\x80\x20\x08\x00\x08\x01\x09")?;
    let mut lines = String::from_str(rt.alloc(), "0 0 ok 0\n")?;
    for turn in 1..4097u64 {
        let clock = turn * 268_435_455;
        write!(lines, "{clock} 8 run 0\n")?;
    }
    lines.push_str("1099511623680 8 no 16\n1099511627776 8 run 0\n")?;
    lines.push_str("1099511627776 8 no 17\n1099511627776 8 no 17\n1099511627776 9 no 3\n")?;
    over_table(&rt, input.as_slice(), lines.as_str())
}

// 65,536 bytes are read and no more: a record or a sheet that goes on behind them is cut.
#[test]
fn longest_input(rt: HostRuntime) -> Result<(), Fail> {
    let mut whole = Vec::new(rt.alloc());
    whole.extend_from_slice(b"\x00\x08\x80\x01")?;
    repeat(&mut whole, b"\x08\x00", 32_766)?;
    assert!(rt; whole.len() == 65_536);
    let mut lines = String::from_str(rt.alloc(), "0 0 ok 0\n")?;
    for _ in 0..32_767 {
        lines.push_str("128 8 run 0\n")?;
    }
    over_table(&rt, whole.as_slice(), lines.as_str())?;
    // A byte more is not read.
    whole.push(9)?;
    over_table(&rt, whole.as_slice(), lines.as_str())
}

#[test]
fn cut_record(rt: HostRuntime) -> Result<(), Fail> {
    let mut input = Vec::new(rt.alloc());
    input.push(0)?;
    repeat(&mut input, b"\x08\x00", 32_768)?;
    assert!(rt; input.len() == 65_537);
    let mut lines = String::from_str(rt.alloc(), "0 0 ok 0\n")?;
    for _ in 0..32_767 {
        lines.push_str("0 8 run 0\n")?;
    }
    lines.push_str("0 8 no 1\n")?;
    over_table(&rt, input.as_slice(), lines.as_str())
}

// A sheet of notes that ends with the last byte that is read, and one that is a byte longer.
#[test]
fn longest_sheet(rt: HostRuntime) -> Result<(), Fail> {
    let mut fits = Vec::new(rt.alloc());
    fits.extend_from_slice(b"\xfd\xff\x03\x02\x01\xff")?;
    repeat(&mut fits, b"\x02\x00", 32_765)?;
    assert!(rt; fits.len() == 65_536);
    over_table(&rt, fits.as_slice(), "0 0 ok 0\n")?;
    let mut longer = Vec::new(rt.alloc());
    longer.extend_from_slice(b"\xfe\xff\x03")?;
    repeat(&mut longer, b"\x02\x00", 32_767)?;
    assert!(rt; longer.len() == 65_537);
    over_table(&rt, longer.as_slice(), "0 0 no 1 1 0\n")
}
