// What a rehearsal prints over a list or over both, beside what it should.
use heap::Heap;
use order::ties::{ByNumber, TieOrder};
use ready::ReadyList;
use rehearsal::play::rehearse;
use std::process::Abort;
use std::test::Fail;
use table::Table;

pub(crate) struct Case {
    pub(crate) input: &'static [u8],
    pub(crate) lines: &'static str,
}

fn over<L: ReadyList>(
    rt: &(impl Abort + AllocGlobal),
    input: &[u8],
    lines: &str,
    list: &mut L,
) -> Result<(), Fail> {
    let played = rehearse(rt.alloc(), input, list)?;
    assert_eq!(rt; played.as_str(), lines);
    Ok(())
}

// Over the searched table and the order by number.
pub(crate) fn over_table(
    rt: &(impl Abort + AllocGlobal),
    input: &[u8],
    lines: &str,
) -> Result<(), Fail> {
    over(rt, input, lines, &mut Table::new(ByNumber))
}

// Over both lists.
pub(crate) fn over_both<O: TieOrder + Copy>(
    rt: &(impl Abort + AllocGlobal),
    input: &[u8],
    lines: &str,
    order: O,
) -> Result<(), Fail> {
    over(rt, input, lines, &mut Table::new(order))?;
    over(rt, input, lines, &mut Heap::new(order))
}
