// Begin: the turn that the ready list and the deadlines ask for.
ghost use Rattle.std.specs.Prelude.{◌≡◌, ◌≤◌};
ghost use Rattle.controller.specs.Tied.{InTable, LongEnough, OpenAfter, TiedTo};
ghost use Rattle.controller.specs.Turns.{beginning, length_of, nearest as nearest_of, runs_of};
ghost use Rattle.ready.specs.Held.{first_of};

use crate::memory::TaskMemory;
use crate::states::{LAST_TICK, OpenTurn, Resting, Runs, Turn};
use order::entries::Entry;
use ready::ReadyList;
use rules::jobs::left_of;
use rules::refusals::Refusal;

impl TaskMemory {
    // The ticks that a turn of the first entry may last.
    fn turn_length(&self, clock: u64, first: Option<Entry>) -> u64
        requires first { InTable first }
        requires room { clock ≤ nearest_of self.now }
        ensures { result ≡ length_of clock self.now first }
    {
        let room = self.nearest() - clock;
        match first {
            None => room,
            Some(e) => left_of(self.task_at(e.number)).min(room),
        }
    }
}

// Who has the processor: an empty list's first is none, and its turn is idle.
impl From<Option<Entry>> for Runs {
    ghost from_gives = { λ first runs. runs ≡ runs_of first };

    fn from(value: Option<Entry>) -> Runs {
        match value {
            None => Runs::Idle,
            Some(e) => Runs::Task {
                number: e.number,
                deadline: e.deadline,
            },
        }
    }
}

impl Resting {
    // Opens a turn for the list's first entry. Refused where the clock has come to its last tick.
    pub fn begin<L: ReadyList>(
        self,
        memory: &TaskMemory,
        list: &L,
    ) -> Result<OpenTurn, (Resting, Refusal)>
        requires { TiedTo L.ReadyList self memory.now list.now }
        ensures answer { result ≡ beginning self memory.now (first_of L.Order.TieOrder.before (L.ReadyList.held list.now)) }
        ensures tied { OpenAfter L.ReadyList L.Order.TieOrder.before result memory.now list.now }
        ensures length { LongEnough result }
    {
        if self.clock == LAST_TICK {
            return Err((self, Refusal::ClockAtEnd));
        }
        let Resting { clock } = self;
        let first = list.first();
        let length = memory.turn_length(clock, first);
        Ok(OpenTurn {
            turn: Turn {
                start: clock,
                length,
                runs: Runs::from(first),
            },
        })
    }
}
