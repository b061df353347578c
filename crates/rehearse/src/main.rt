// The rehearsal program: standard input to standard output, over the ready list and the tie order that the command line names.
#![tactic(auto)]

ghost use Rattle.std.specs.Prelude.{◌≡◌, IfOk, string_bytes, take};
ghost use Rattle.rehearsal.specs.Rehearsals.{rehearsed};

mod options;

use heap::Heap;
use options::{ListKind, Options, OrderKind, USAGE, parse};
use order::ties::{ByNumber, ByRate, TieOrder};
use rehearsal::play::{LONGEST_INPUT, rehearse};
use std::alloc::Global;
use std::io::Read;
use std::process::ExitCode;
use std::{env, fmt};
use table::Table;

// The most that a rehearsal looks at; what follows is left unread.
fn read_input(rt: &HostRuntime) -> anyhow::Result<Vec<u8>> {
    let mut input = Vec::new(rt.alloc());
    rt.stdin()
        .take(LONGEST_INPUT as u64)
        .read_to_end(&mut input)?;
    Ok(input)
}

// What is printed in an order does not depend on the list.
fn lines_over<O: TieOrder + Drop>(
    heap: Global,
    list: ListKind,
    order: O,
    input: &[u8],
) -> Result<String, fmt::Error>
    ensures { IfOk result (λ out. string_bytes out ≡ rehearsed O.TieOrder.before (take 65536 input.now)) }
{
    match list {
        ListKind::Table => rehearse(heap, input, &mut Table::new(order)),
        ListKind::Heap => rehearse(heap, input, &mut Heap::new(order)),
    }
}

fn lines_of(heap: Global, options: Options, input: &[u8]) -> Result<String, fmt::Error> {
    let list = options.list.unwrap_or_default();
    match options.order.unwrap_or_default() {
        OrderKind::Number => lines_over(heap, list, ByNumber, input),
        OrderKind::Rate => lines_over(heap, list, ByRate, input),
    }
}

// The options of the command line, or none where it is no such command line.
fn read_options(rt: &HostRuntime) -> anyhow::Result<Option<Options>> {
    let mut words = Vec::new(rt.alloc());
    for word in env::args(rt)?.skip(1) {
        words.push(word)?;
    }
    Ok(parse(words.as_slice()))
}

fn run(rt: &HostRuntime, options: Options) -> anyhow::Result<()> {
    let input = read_input(rt)?;
    let lines = lines_of(rt.alloc(), options, input.as_slice())?;
    print!(rt; "{lines}")?;
    Ok(())
}

fn main(rt: HostRuntime) -> anyhow::Result<ExitCode> {
    let Some(options) = read_options(&rt)? else {
        eprintln!(rt; "{USAGE}")?;
        return Ok(ExitCode::FAILURE);
    };
    run(&rt, options)?;
    Ok(ExitCode::SUCCESS)
}
