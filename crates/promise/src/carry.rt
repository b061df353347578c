// A whole list of calls, carried out and answered.
ghost use Rattle.std.specs.Prelude.{◌≡◌, map, length, take};
ghost use Rattle.calls.specs.Answering.{after_all, answers_to, start};
ghost use Rattle.calls.specs.Asking.{asked_by};
ghost use Rattle.calls.specs.Stages.{TiedTo, state_of};
ghost use Rattle.promise.specs.Account.{fresh};
ghost use Rattle.promise.specs.Carrying.{written_over};
ghost use Rattle.promise.specs.Promised.{Promise};
ghost use Rattle.rules.specs.Tasks.{entry_of};

use calls::exchanges::{Answer, Call};
use calls::stages::Stage;
use controller::memory::TaskMemory;
use ready::ReadyList;

// The loop of `carry_out`, from any stage on.
fn answer_each<L: ReadyList>(
    first: Stage,
    calls: &[Call],
    answers: &mut [Answer],
    memory: &mut TaskMemory,
    list: &mut L,
) -> Stage
    requires { TiedTo L.ReadyList L.Order.TieOrder.before first memory.old list.old }
    ensures answers { answers.new ≡ written_over (answers_to L.Order.TieOrder.before (state_of first memory.old) (map asked_by calls.now)) answers.old }
    ensures state { state_of result memory.new ≡ after_all L.Order.TieOrder.before (state_of first memory.old) (take (length answers.old) (map asked_by calls.now)) }
    ensures list { L.ReadyList.held list.new ≡ map entry_of memory.new }
    ensures tied { TiedTo L.ReadyList L.Order.TieOrder.before result memory.new list.new }
{
    let mut stage = first;
    // Not a zip with the places: what is written through one, no clause tells afterwards.
    let mut asked = calls.iter();
    for answer in answers.iter_mut() {
        let Some(call) = asked.next() else { break };
        (stage, *answer) = stage.answer(*call, memory, list);
    }
    stage
}

// Carries out the calls, from a controller without tasks on, and writes down each answer: as many as both slices have room for.
#[tactic(auto, using(crate::proofs::Keeping::promise_over))]
pub fn carry_out<L: ReadyList>(
    calls: &[Call],
    answers: &mut [Answer],
    memory: &mut TaskMemory,
    list: &mut L,
) -> Stage
    ensures answers { answers.new ≡ written_over (answers_to L.Order.TieOrder.before start (map asked_by calls.now)) answers.old }
    ensures state { state_of result memory.new ≡ after_all L.Order.TieOrder.before start (take (length answers.old) (map asked_by calls.now)) }
    ensures list { L.ReadyList.held list.new ≡ map entry_of memory.new }
    ensures tied { TiedTo L.ReadyList L.Order.TieOrder.before result memory.new list.new }
    ensures promise { Promise L.Order.TieOrder.before fresh (map asked_by calls.now) answers.new }
{
    let first = Stage::start(memory, list);
    answer_each(first, calls, answers, memory, list)
}
