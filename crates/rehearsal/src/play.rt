// A whole rehearsal on bytes.
ghost use Rattle.std.specs.Prelude.{◌≡◌, ◌++◌, take, IfOk, string_bytes, OnOk};
ghost use Rattle.controller.specs.Making.{made as made_of};
ghost use Rattle.controller.specs.Tied.{TiedTo};
ghost use Rattle.rehearsal.specs.Opened.{opening_of};
ghost use Rattle.rehearsal.specs.Lines.{line_of};
ghost use Rattle.rehearsal.specs.Rehearsals.{lines_of, opening, performed, played, record_code, recorded, rehearsed, said_of};
ghost use Rattle.rehearsal.specs.Scripts.{script_from};
ghost use Rattle.rehearsal.specs.Turns.{done_by};

use crate::lines::{Accepted, Line, Outcome, Refused, write_line};
use crate::scripts::{BadStep, Calls, Step};
use crate::turns::take_turn;
use controller::make::make;
use controller::memory::TaskMemory;
use controller::states::Resting;
use ready::ReadyList;
use rules::refusals::Refusal;
use sheet::numbers::NumberFault;
use sheet::records::{RecordFault, Rest, read_field};
use std::alloc::Global;
use std::fmt;

// The sheet's bytes, and the offset of the first call record behind them.
fn read_opening<'a>(input: &'a [u8]) -> Result<(&'a [u8], usize), RecordFault>
    ensures { opening_of result ≡ opening input.now }
{
    let whole = Rest {
        bytes: input,
        place: 0,
    };
    let (size, rest) = read_field(whole)?;
    let count = size.value as usize;
    let sheet = rest.bytes.get(..count).ok_or(NumberFault::Cut(0))?;
    Ok((sheet, rest.place + count))
}

// What comes of a call on one task.
fn outcome_of(answer: Result<(), Refusal>) -> Outcome
    ensures { result ≡ said_of answer }
{
    answer?;
    Ok(Accepted::Call)
}

// Carries out one call. Memory and list are lent to it, as to each call of the controller.
#[tactic(auto, using(crate::proofs::Playing::said_accepted))]
fn perform<L: ReadyList>(
    rest: Resting,
    step: Step,
    memory: &mut TaskMemory,
    list: &mut L,
) -> (Resting, Outcome)
    requires { TiedTo L.ReadyList rest memory.old list.old }
    ensures done { done_by result.0 memory.new result.1 ≡ performed L.Order.TieOrder.before rest memory.old step }
    ensures tied { TiedTo L.ReadyList result.0 memory.new list.new }
{
    match step {
        Step::Admit { asked } => {
            let answer = rest.admit(asked, memory, list);
            (rest, outcome_of(answer))
        }
        Step::Change { number, change } => {
            let answer = rest.change(number, change, memory, list);
            (rest, outcome_of(answer))
        }
        Step::Turn { count } => take_turn(rest, count, memory, list),
    }
}

// Carries out a call record, and gives its line. A bad one changes nothing.
fn play_record<L: ReadyList>(
    rest: Resting,
    found: Result<Step, BadStep>,
    memory: &mut TaskMemory,
    list: &mut L,
) -> (Resting, Line)
    requires { TiedTo L.ReadyList rest memory.old list.old }
    ensures done { done_by result.0 memory.new result.1.outcome ≡ recorded L.Order.TieOrder.before rest memory.old found }
    ensures code { result.1.code ≡ record_code found }
    ensures clock { result.1.clock ≡ result.0 }
    ensures tied { TiedTo L.ReadyList result.0 memory.new list.new }
{
    let (rest, code, outcome) = match found {
        Ok(step) => {
            let (rest, outcome) = perform(rest, step, memory, list);
            (rest, u8::from(step.code()), outcome)
        }
        Err(bad) => (rest, bad.code, Err(Refused::BadRecord(bad.why))),
    };
    let line = Line {
        clock: rest.clock(),
        code,
        outcome,
    };
    (rest, line)
}

// The line of a sheet with so many tasks, and a line for each call record from an offset on.
// The controller is handed back with every error, and so no `?`: it cannot be dropped.
fn play<L: ReadyList>(
    first: Resting,
    tasks: u32,
    calls: Calls,
    memory: &mut TaskMemory,
    list: &mut L,
    out: &mut String,
) -> (Resting, fmt::Result)
    requires { TiedTo L.ReadyList first memory.old list.old }
    ensures { OnOk result.1 (string_bytes out.new ≡ string_bytes out.old ++ (line_of 0 0 (Ok (Accepted.Sheet tasks)) ++ lines_of L.Order.TieOrder.before first memory.old (script_from calls.entry.input.now calls.entry.place))) }
{
    if let Err(error) = write_line(out, Line::of_sheet(Ok(Accepted::Sheet(tasks)))) {
        return (first, Err(error));
    }
    let mut rest = first;
    for found in calls {
        let (next, line) = play_record(rest, found, memory, list);
        rest = next;
        if let Err(error) = write_line(out, line) {
            return (rest, Err(error));
        }
    }
    (rest, Ok(()))
}

// Makes the controller from the sheet, writes the sheet's line and plays the calls behind it.
fn play_sheet<L: ReadyList>(
    input: &[u8],
    sheet: &[u8],
    place: usize,
    list: &mut L,
    out: &mut String,
) -> fmt::Result
    ensures { OnOk result (string_bytes out.new ≡ string_bytes out.old ++ played L.Order.TieOrder.before input.now place (made_of sheet.now)) }
{
    let mut memory = TaskMemory::new();
    let (rest, made) = make(sheet, &mut memory, list);
    let (rest, played) = match made {
        Ok(tasks) => {
            let calls = Calls { input, place };
            play(rest, tasks, calls, &mut memory, list, out)
        }
        Err(fault) => {
            let line = Line::of_sheet(Err(Refused::BadSheet(fault)));
            (rest, write_line(out, line))
        }
    };
    let _ = rest.retire();
    played
}

// No more of the input is looked at.
pub const LONGEST_INPUT: usize = 65_536;

// The part of the input that is looked at.
fn front<'a>(input: &'a [u8]) -> &'a [u8]
    ensures { result.now ≡ take 65536 input.now }
{
    input.get(..LONGEST_INPUT).unwrap_or(input)
}

// A whole rehearsal: what it prints for the input. It fails only for want of memory.
pub fn rehearse<L: ReadyList>(
    heap: Global,
    input: &[u8],
    list: &mut L,
) -> Result<String, fmt::Error>
    ensures { IfOk result (λ out. string_bytes out ≡ rehearsed L.Order.TieOrder.before (take 65536 input.now)) }
{
    let input = front(input);
    let mut out = String::new(heap);
    match read_opening(input) {
        Ok((sheet, place)) => play_sheet(input, sheet, place, list, &mut out)?,
        Err(fault) => {
            let line = Line::of_sheet(Err(Refused::BadSheet(fault.into())));
            write_line(&mut out, line)?
        }
    }
    Ok(out)
}
