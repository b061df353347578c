// What is asked of a controller, and what it answers.
use controller::faults::SheetFault;
use controller::states::Turn;
use rules::admission::Reservation;
use rules::changes::Change;
use rules::refusals::Refusal;
use rules::withdrawals::Departure;

// A call with its arguments; make borrows its sheet.
#[derive(Clone, Copy)]
pub enum Call<'a> {
    Make { sheet: &'a [u8] },
    Admit { asked: Reservation },
    Change { number: u32, change: Change },
    Withdraw { number: u32 },
    Begin,
    Settle { count: u64 },
}

// What a call has done.
#[derive(Clone, Copy, PartialEq, Eq, Debug)]
pub enum Reply {
    // make: how many tasks the sheet has
    Made(u32),
    // admit or change was accepted
    Done,
    // withdraw was accepted: when the task goes
    Withdrawn(Departure),
    // begin: the turn that is open now
    Opened(Turn),
    // settle was accepted: the clock after it
    Settled(u64),
}

// Why a call was denied.
#[derive(Clone, Copy, PartialEq, Eq, Debug)]
pub enum Denial {
    // make: what is wrong with the sheet
    Faulty(SheetFault),
    // any call but make was refused
    Refused(Refusal),
    // settle where no turn is open, or any other call where one is: nothing was done
    OutOfPlace,
}

pub type Answer = Result<Reply, Denial>;

impl From<SheetFault> for Denial {
    ghost use Rattle.std.specs.Prelude.{◌≡◌};
    ghost use Rattle.calls.specs.declared.exchanges.Denial.TheVariants.{Faulty};

    ghost from_gives = { λ fault denial. denial ≡ Faulty fault };

    fn from(fault: SheetFault) -> Denial {
        Denial::Faulty(fault)
    }
}

impl From<Refusal> for Denial {
    ghost use Rattle.std.specs.Prelude.{◌≡◌};
    ghost use Rattle.calls.specs.declared.exchanges.Denial.TheVariants.{Refused};

    ghost from_gives = { λ why denial. denial ≡ Refused why };

    fn from(why: Refusal) -> Denial {
        Denial::Refused(why)
    }
}
