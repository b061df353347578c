// The lines of a rehearsal.
ghost use Rattle.std.specs.Prelude.{◌≡◌, ◌++◌, string_bytes, OnOk, Some};
ghost use Rattle.rehearsal.specs.declared.lines.Refused.TheVariants.{ByRule};
ghost use Rattle.rehearsal.specs.Lines.{accepted_as, line_of, numbers_of, refused_as};

use crate::scripts::StepFault;
use controller::faults::SheetFault;
use controller::states::Runs;
use rules::refusals::Refusal;
use sheet::records::Told;
use std::fmt;

// What was accepted.
#[derive(Clone, Copy, PartialEq, Eq, Debug)]
pub enum Accepted {
    // A sheet with so many tasks.
    Sheet(u32),
    // A call on one task.
    Call,
    // A turn, with who had it.
    Ran(Runs),
}

impl fmt::Display for Accepted {
    ghost output = { λ accepted. Some (accepted_as accepted) };

    fn fmt<W: fmt::Write>(&self, f: &mut fmt::Formatter<W>) -> fmt::Result {
        match self {
            Accepted::Sheet(tasks) => write!(f, "ok {tasks}"),
            Accepted::Call => write!(f, "ok 0"),
            Accepted::Ran(Runs::Task { number, .. }) => write!(f, "run {number}"),
            Accepted::Ran(Runs::Idle) => write!(f, "run 0"),
        }
    }
}

// What is printed of a refusal: its number alone, or number, layer and place of a sheet's fault.
#[derive(Clone, Copy, PartialEq, Eq, Debug)]
pub enum Numbers {
    One(u8),
    Three(Told),
}

// Why a sheet or a call was not accepted.
#[derive(Clone, Copy, PartialEq, Eq, Debug)]
pub enum Refused {
    // The sheet has a fault.
    BadSheet(SheetFault),
    // A rule speaks against the call.
    ByRule(Refusal),
    // The call's record has a fault.
    BadRecord(StepFault),
    // Known by its numbers alone, which may be any: for lines of others, since a rehearsal has the three above.
    ByNumbers(Numbers),
}

impl From<Refusal> for Refused {
    ghost from_gives = { λ why whole. whole ≡ ByRule why };

    fn from(value: Refusal) -> Refused {
        Refused::ByRule(value)
    }
}

impl From<Refused> for Numbers {
    ghost from_gives = { λ refused numbers. numbers ≡ numbers_of refused };

    fn from(value: Refused) -> Numbers {
        match value {
            Refused::BadSheet(fault) => Numbers::Three(Told::from(fault)),
            Refused::ByRule(why) => Numbers::One(u8::from(why)),
            Refused::BadRecord(fault) => Numbers::One(u8::from(fault)),
            Refused::ByNumbers(numbers) => numbers,
        }
    }
}

impl fmt::Display for Refused {
    ghost output = { λ refused. Some (refused_as refused) };

    fn fmt<W: fmt::Write>(&self, f: &mut fmt::Formatter<W>) -> fmt::Result {
        match Numbers::from(*self) {
            Numbers::One(number) => write!(f, "no {number}"),
            Numbers::Three(
                Told {
                    number,
                    layer,
                    place,
                },
            ) => write!(f, "no {number} {layer} {place}"),
        }
    }
}

pub type Outcome = Result<Accepted, Refused>;

// The line of one call: the clock after it, its code byte and what came of it. A byte and no `Code`: a bad record may have any, and a sheet's line has 0.
#[derive(Clone, Copy, PartialEq, Eq, Debug)]
pub struct Line {
    pub clock: u64,
    pub code: u8,
    pub outcome: Outcome,
}

impl Line {
    // The line of a sheet, which has the code byte 0.
    pub(crate) fn of_sheet(outcome: Outcome) -> Line
        ensures { result ≡ record { clock = 0; code = 0; outcome = outcome } }
    {
        Line {
            clock: 0,
            code: 0,
            outcome,
        }
    }
}

impl fmt::Display for Line {
    ghost output = { λ line. Some (line_of line.clock line.code line.outcome) };

    fn fmt<W: fmt::Write>(&self, f: &mut fmt::Formatter<W>) -> fmt::Result {
        let Line {
            clock,
            code,
            outcome,
        } = *self;
        match outcome {
            Ok(accepted) => writeln!(f, "{clock} {code} {accepted}"),
            Err(refused) => writeln!(f, "{clock} {code} {refused}"),
        }
    }
}

// Adds a line to those before it.
pub fn write_line(out: &mut String, line: Line) -> fmt::Result
    ensures { OnOk result (string_bytes out.new ≡ string_bytes out.old ++ line_of line.clock line.code line.outcome) }
{
    write!(out, "{line}")?;
    Ok(())
}
