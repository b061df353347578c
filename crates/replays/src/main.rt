// Replays stored rehearsals over both lists and both orders, and tells which of them come out otherwise than stored.
#![tactic(auto)]

use heap::Heap;
use order::ties::{ByNumber, ByRate, TieOrder};
use ready::ReadyList;
use rehearsal::play::rehearse;
use std::fs;
use table::Table;

// How many rehearsals are stored, as data/00.in and so on, each with what it prints under both orders.
const STORED: u32 = 69;

fn stored(rt: &HostRuntime, number: u32, ending: &str) -> anyhow::Result<Vec<u8>> {
    let path = format!(in rt.alloc(); "{number:02}.{ending}")?;
    Ok(fs::read(rt, path.as_str())?)
}

// Whether a rehearsal over this list prints what is stored.
fn prints<L: ReadyList>(
    rt: &HostRuntime,
    input: &[u8],
    stored: &[u8],
    list: &mut L,
) -> anyhow::Result<bool> {
    let lines = rehearse(rt.alloc(), input, list)?;
    Ok(lines.as_bytes() == stored)
}

// Whether a rehearsal in this order prints what is stored, over both lists. One is compared before the next is played, so that one output is held at a time.
fn agrees<O: TieOrder + Copy>(
    rt: &HostRuntime,
    input: &[u8],
    stored: &[u8],
    order: O,
) -> anyhow::Result<bool> {
    let table = prints(rt, input, stored, &mut Table::new(order))?;
    let heap = prints(rt, input, stored, &mut Heap::new(order))?;
    Ok(table && heap)
}

// Replays one rehearsal in both orders.
fn replay(rt: &HostRuntime, number: u32) -> anyhow::Result<bool> {
    let input = stored(rt, number, "in")?;
    let by_number = stored(rt, number, "number")?;
    let by_rate = stored(rt, number, "rate")?;
    let numbers_agree = agrees(rt, input.as_slice(), by_number.as_slice(), ByNumber)?;
    let rates_agree = agrees(rt, input.as_slice(), by_rate.as_slice(), ByRate)?;
    Ok(numbers_agree && rates_agree)
}

fn run(rt: &HostRuntime) -> anyhow::Result<()> {
    let mut agreed = 0u32;
    for number in 0..STORED {
        if replay(rt, number)? {
            agreed += 1;
        } else {
            println!(rt; "{number:02} comes out otherwise")?;
        }
    }
    println!(rt; "{agreed} of {STORED} rehearsals agree over both lists and both orders")?;
    Ok(())
}

fn main(rt: HostRuntime) -> anyhow::Result<()> {
    run(&rt)
}
