// A firmware's main loop in small: a controller is made from a sheet, and tasks are changed between turns.
// Shows how state, task memory and ready list are kept together from call to call; README explains it.
#![tactic(auto)]

ghost use Rattle.controller.specs.Tied.{OpenOn, TiedTo};

use controller::make::make;
use controller::memory::TaskMemory;
use controller::states::{OpenTurn, Resting, Turn};
use order::ties::ByNumber;
use ready::ReadyList;
use rules::admission::Reservation;
use rules::changes::Change;
use table::Table;

// Task 1 has rate 500 and period 10, task 2 rate 250 and period 8.
const SHEET: &[u8] = b"\x01\x01\xf4\x03\x0a\x01A\x01\x02\xfa\x01\x08\x01B";

// Lets the turn's task run, or waits, and tells how many ticks have passed. Here nothing runs, and the turn is used up.
fn run(turn: Turn) -> u64 {
    turn.length
}

// Runs an open turn and settles it. A count above its length leaves it open: it is then given up.
fn run_turn<L: ReadyList>(opened: OpenTurn, memory: &mut TaskMemory, list: &mut L) -> Resting
    requires { OpenOn L.ReadyList L.Order.TieOrder.before opened memory.old list.old }
    ensures { TiedTo L.ReadyList result memory.new list.new }
{
    let count = run(opened.turn());
    match opened.settle(count, memory, list) {
        Ok(rest) => rest,
        Err((opened, _)) => opened.give_up(memory, list),
    }
}

// Begins a turn and runs it. At the last tick no turn begins.
fn one_turn<L: ReadyList>(rest: Resting, memory: &mut TaskMemory, list: &mut L) -> Resting
    requires { TiedTo L.ReadyList rest memory.old list.old }
    ensures { TiedTo L.ReadyList result memory.new list.new }
{
    match rest.begin(memory, list) {
        Ok(opened) => run_turn(opened, memory, list),
        Err((rest, _)) => rest,
    }
}

// So many turns, one after another.
fn run_turns<L: ReadyList>(
    first: Resting,
    count: u32,
    memory: &mut TaskMemory,
    list: &mut L,
) -> Resting
    requires { TiedTo L.ReadyList first memory.old list.old }
    ensures { TiedTo L.ReadyList result memory.new list.new }
{
    let mut rest = first;
    for _ in 0..count {
        rest = one_turn(rest, memory, list);
    }
    rest
}

// A short run: turns, a raise, more turns, a withdrawal and an admission, more turns. Answers where the clock then stands.
fn short_run<L: ReadyList>(memory: &mut TaskMemory, list: &mut L) -> u64 {
    let (rest, _) = make(SHEET, memory, list);
    let rest = run_turns(rest, 2, memory, list);
    let _ = rest.change(1, Change::Rate(750), memory, list);
    let rest = run_turns(rest, 2, memory, list);
    let _ = rest.withdraw(2, memory, list);
    let asked = Reservation {
        number: 3,
        rate: 100,
        period: 50,
    };
    let _ = rest.admit(asked, memory, list);
    let rest = run_turns(rest, 4, memory, list);
    rest.retire()
}

fn main(rt: HostRuntime) -> anyhow::Result<()> {
    let clock = short_run(&mut TaskMemory::new(), &mut Table::new(ByNumber));
    println!(rt; "the clock stands at {clock}")?;
    Ok(())
}
