// The two states of a controller, as values that are moved and never copied: resting, or with a turn open.
// Each is plain numbers; tasks and list are lent to every call, and the contracts tie them to the state.
ghost use Rattle.std.specs.Prelude.{◌≡◌};

use std::marker::Model;

// The clock's last tick, 2^40.
pub const LAST_TICK: u64 = 1_099_511_627_776;

// Between turns. Contracts see its clock.
pub struct Resting {
    pub(crate) clock: u64,
}

impl Model for Resting {
    ghost use Rattle.std.specs.Prelude.{ℕ};

    ghost Value = { ℕ };

    ghost view = { λ rest. rest.clock };

    ghost inverse = { λ clock. record { clock = clock } };
}

// Who has the processor in a turn. Two cases with names, by a rule of the project; not an option of a task.
#[derive(Clone, Copy, PartialEq, Eq, Debug)]
pub enum Runs {
    Task { number: u32, deadline: u64 },
    Idle,
}

#[derive(Clone, Copy, PartialEq, Eq, Debug)]
pub struct Turn {
    pub start: u64,
    pub length: u64,
    pub runs: Runs,
}

// A turn that was begun: it is settled, and until then no other call is to be had. Contracts see the turn.
pub struct OpenTurn {
    pub(crate) turn: Turn,
}

impl Model for OpenTurn {
    ghost use Rattle.controller.specs.declared.states.Turn.{Turn};

    ghost Value = { Turn };

    ghost view = { λ opened. opened.turn };

    ghost inverse = { λ turn. record { turn = turn } };
}

impl Resting {
    pub fn clock(&self) -> u64
        ensures { result ≡ self.now }
    {
        self.clock
    }

    // Gives the controller up, and tells where its clock stood.
    pub fn retire(self) -> u64
        ensures { result ≡ self }
    {
        let Resting { clock } = self;
        clock
    }
}

impl OpenTurn {
    pub fn turn(&self) -> Turn
        ensures { result ≡ self.now }
    {
        self.turn
    }
}
