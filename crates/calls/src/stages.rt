// A controller that is asked one call after another, in whatever order.
ghost use Rattle.std.specs.Prelude.{◌≡◌, map};
ghost use Rattle.calls.specs.Answering.{after, answer_to, rest_answer, rest_next, start as started, turn_answer, turn_next};
ghost use Rattle.calls.specs.Asking.{asked_by, begin as asks_begin, settle as asks_settle};
ghost use Rattle.calls.specs.Stages.{TiedTo, state_of};
ghost use Rattle.rules.specs.Tasks.{entry_of};

use crate::exchanges::{Answer, Call, Denial, Reply};
use controller::make::{make, start};
use controller::memory::TaskMemory;
use controller::states::{OpenTurn, Resting};
use ready::ReadyList;

// Where a controller stands between two calls: at rest, or with a turn open. It is moved from call to call.
pub enum Stage {
    Rest(Resting),
    Turning(OpenTurn),
}

// Begins a turn, where the clock has not come to its last tick.
fn open_turn<L: ReadyList>(rest: Resting, memory: &TaskMemory, list: &L) -> (Stage, Answer)
    requires { TiedTo L.ReadyList L.Order.TieOrder.before (Stage.Rest rest) memory.now list.now }
    ensures answer { result.1 ≡ rest_answer L.Order.TieOrder.before rest memory.now asks_begin }
    ensures state { state_of result.0 memory.now ≡ rest_next L.Order.TieOrder.before rest memory.now asks_begin }
    ensures tied { TiedTo L.ReadyList L.Order.TieOrder.before result.0 memory.now list.now }
{
    match rest.begin(memory, list) {
        Ok(opened) => {
            let turn = opened.turn();
            (Stage::Turning(opened), Ok(Reply::Opened(turn)))
        }
        Err((rest, why)) => (Stage::Rest(rest), Err(why.into())),
    }
}

// A call while the controller rests: settle has no turn to close, and is out of its place.
fn answer_at_rest<L: ReadyList>(
    rest: Resting,
    call: Call,
    memory: &mut TaskMemory,
    list: &mut L,
) -> (Stage, Answer)
    requires { TiedTo L.ReadyList L.Order.TieOrder.before (Stage.Rest rest) memory.old list.old }
    ensures answer { result.1 ≡ rest_answer L.Order.TieOrder.before rest memory.old (asked_by call.entry) }
    ensures state { state_of result.0 memory.new ≡ rest_next L.Order.TieOrder.before rest memory.old (asked_by call.entry) }
    ensures tied { TiedTo L.ReadyList L.Order.TieOrder.before result.0 memory.new list.new }
{
    match call {
        Call::Make { sheet } => {
            let _ = rest.retire();
            let (rest, made) = make(sheet, memory, list);
            let answer = made.map(Reply::Made).map_err(Denial::from);
            (Stage::Rest(rest), answer)
        }
        Call::Admit { asked } => {
            let done = rest.admit(asked, memory, list);
            let answer = done.map(|()| Reply::Done).map_err(Denial::from);
            (Stage::Rest(rest), answer)
        }
        Call::Change { number, change } => {
            let done = rest.change(number, change, memory, list);
            let answer = done.map(|()| Reply::Done).map_err(Denial::from);
            (Stage::Rest(rest), answer)
        }
        Call::Withdraw { number } => {
            let when = rest.withdraw(number, memory, list);
            let answer = when.map(Reply::Withdrawn).map_err(Denial::from);
            (Stage::Rest(rest), answer)
        }
        Call::Begin => open_turn(rest, memory, list),
        Call::Settle { .. } => (Stage::Rest(rest), Err(Denial::OutOfPlace)),
    }
}

// Settles the open turn; a refusal leaves it open.
fn settle_turn<L: ReadyList>(
    opened: OpenTurn,
    count: u64,
    memory: &mut TaskMemory,
    list: &mut L,
) -> (Stage, Answer)
    requires { TiedTo L.ReadyList L.Order.TieOrder.before (Stage.Turning opened) memory.old list.old }
    ensures answer { result.1 ≡ turn_answer opened (asks_settle count) }
    ensures state { state_of result.0 memory.new ≡ turn_next opened memory.old (asks_settle count) }
    ensures tied { TiedTo L.ReadyList L.Order.TieOrder.before result.0 memory.new list.new }
{
    match opened.settle(count, memory, list) {
        Ok(rest) => {
            let clock = rest.clock();
            (Stage::Rest(rest), Ok(Reply::Settled(clock)))
        }
        Err((opened, why)) => (Stage::Turning(opened), Err(why.into())),
    }
}

// A call while a turn is open: only settle is in its place.
fn answer_in_turn<L: ReadyList>(
    opened: OpenTurn,
    call: Call,
    memory: &mut TaskMemory,
    list: &mut L,
) -> (Stage, Answer)
    requires { TiedTo L.ReadyList L.Order.TieOrder.before (Stage.Turning opened) memory.old list.old }
    ensures answer { result.1 ≡ turn_answer opened (asked_by call.entry) }
    ensures state { state_of result.0 memory.new ≡ turn_next opened memory.old (asked_by call.entry) }
    ensures tied { TiedTo L.ReadyList L.Order.TieOrder.before result.0 memory.new list.new }
{
    match call {
        Call::Settle { count } => settle_turn(opened, count, memory, list),
        _ => (Stage::Turning(opened), Err(Denial::OutOfPlace)),
    }
}

impl Stage {
    // A controller without tasks, at the clock 0, whatever memory and list held before.
    pub fn start<L: ReadyList>(memory: &mut TaskMemory, list: &mut L) -> Stage
        ensures state { state_of result memory.new ≡ started }
        ensures list { L.ReadyList.held list.new ≡ map entry_of memory.new }
        ensures tied { TiedTo L.ReadyList L.Order.TieOrder.before result memory.new list.new }
    {
        Stage::Rest(start(memory, list))
    }

    // Carries out one call. One out of its place is answered so, and changes nothing.
    pub fn answer<L: ReadyList>(
        self,
        call: Call,
        memory: &mut TaskMemory,
        list: &mut L,
    ) -> (Stage, Answer)
        requires { TiedTo L.ReadyList L.Order.TieOrder.before self memory.old list.old }
        ensures answer { result.1 ≡ answer_to L.Order.TieOrder.before (state_of self memory.old) (asked_by call.entry) }
        ensures state { state_of result.0 memory.new ≡ after L.Order.TieOrder.before (state_of self memory.old) (asked_by call.entry) }
        ensures list { L.ReadyList.held list.new ≡ map entry_of memory.new }
        ensures tied { TiedTo L.ReadyList L.Order.TieOrder.before result.0 memory.new list.new }
    {
        match self {
            Stage::Rest(rest) => answer_at_rest(rest, call, memory, list),
            Stage::Turning(opened) => answer_in_turn(opened, call, memory, list),
        }
    }

    // Ends a run, and tells where its clock stood; an open turn is given back unused.
    pub fn end<L: ReadyList>(self, memory: &mut TaskMemory, list: &mut L) -> u64
        requires { TiedTo L.ReadyList L.Order.TieOrder.before self memory.old list.old }
        ensures clock { result ≡ (state_of self memory.old).clock }
        ensures tasks { memory.new ≡ memory.old }
        ensures list { L.ReadyList.held list.new ≡ map entry_of memory.new }
    {
        match self {
            Stage::Rest(rest) => rest.retire(),
            Stage::Turning(opened) => opened.give_up(memory, list).retire(),
        }
    }
}
