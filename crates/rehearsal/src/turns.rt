// A turn of a rehearsal: begin, settle with the count, and give up where that is refused.
ghost use Rattle.std.specs.Prelude.{◌≡◌};
ghost use Rattle.controller.specs.Tied.{OpenOn, TiedTo};
ghost use Rattle.rehearsal.specs.Turns.{done_by, turned, turned_by};

use crate::lines::{Accepted, Outcome};
use controller::memory::TaskMemory;
use controller::states::{OpenTurn, Resting};
use ready::ReadyList;

// Settles an open turn with the count, and gives it up where that is refused.
fn settle_turn<L: ReadyList>(
    opened: OpenTurn,
    count: u32,
    memory: &mut TaskMemory,
    list: &mut L,
) -> (Resting, Outcome)
    requires { OpenOn L.ReadyList L.Order.TieOrder.before opened memory.old list.old }
    ensures done { done_by result.0 memory.new result.1 ≡ turned_by opened memory.old count }
    ensures tied { TiedTo L.ReadyList result.0 memory.new list.new }
{
    let runs = opened.turn().runs;
    match opened.settle(u64::from(count), memory, list) {
        Ok(rest) => (rest, Ok(Accepted::Ran(runs))),
        Err((opened, why)) => (opened.give_up(memory, list), Err(why.into())),
    }
}

// One turn of the rehearsal.
pub(crate) fn take_turn<L: ReadyList>(
    rest: Resting,
    count: u32,
    memory: &mut TaskMemory,
    list: &mut L,
) -> (Resting, Outcome)
    requires { TiedTo L.ReadyList rest memory.old list.old }
    ensures done { done_by result.0 memory.new result.1 ≡ turned L.Order.TieOrder.before rest memory.old count }
    ensures tied { TiedTo L.ReadyList result.0 memory.new list.new }
{
    match rest.begin(memory, list) {
        Ok(opened) => settle_turn(opened, count, memory, list),
        Err((rest, why)) => (rest, Err(why.into())),
    }
}
