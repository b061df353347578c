// The call records of a rehearsal: a code byte and its numbers.
ghost use Rattle.std.specs.Iterator.{at_most};
ghost use Rattle.std.specs.Prelude.{◌≡◌, ◌-◌, length};
ghost use Rattle.rehearsal.specs.Codes.{byte_of, code_in};
ghost use Rattle.rehearsal.specs.declared.scripts.StepFault.TheVariants.{InField};
ghost use Rattle.rehearsal.specs.Scripts.{Gives, change_in, code_of, number_of, numbers_in, record_in, script_from, step_at, step_in};
ghost use Rattle.sheet.specs.Values.{left_of};

use rules::admission::Reservation;
use rules::changes::Change;
use sheet::records::{RecordFault, Rest, Told, read_field};

// The calls, by the code byte that a record opens with.
#[derive(Clone, Copy, PartialEq, Eq, Debug)]
pub enum Code {
    Admit = 1,
    Rate = 2,
    Period = 3,
    Wait = 4,
    Wake = 5,
    Finish = 6,
    Turn = 8,
}

impl From<Code> for u8 {
    ghost from_gives = { λ code byte. byte ≡ byte_of code };

    fn from(value: Code) -> u8 {
        value as u8
    }
}

impl TryFrom<u8> for Code {
    type Error = StepFault;

    ghost try_from_gives = { λ byte outcome. outcome ≡ code_in byte };

    fn try_from(value: u8) -> Result<Code, StepFault> {
        match value {
            1 => Ok(Code::Admit),
            2 => Ok(Code::Rate),
            3 => Ok(Code::Period),
            4 => Ok(Code::Wait),
            5 => Ok(Code::Wake),
            6 => Ok(Code::Finish),
            8 => Ok(Code::Turn),
            _ => Err(StepFault::UnknownCode),
        }
    }
}

// What a call record asks for.
#[derive(Clone, Copy)]
pub enum Step {
    Admit { asked: Reservation },
    Change { number: u32, change: Change },
    // begin, then settle with the count
    Turn { count: u32 },
}

impl Step {
    // The code that its record opens with.
    pub fn code(self) -> Code
        ensures { result ≡ code_of self }
    {
        match self {
            Step::Admit { .. } => Code::Admit,
            Step::Change { change, .. } => match change {
                Change::Rate(_) => Code::Rate,
                Change::Period(_) => Code::Period,
                Change::Wait => Code::Wait,
                Change::Wake => Code::Wake,
                Change::Finish => Code::Finish,
            },
            Step::Turn { .. } => Code::Turn,
        }
    }
}

// What is wrong with a call record.
#[derive(Clone, Copy, PartialEq, Eq, Debug)]
pub enum StepFault {
    // No call has the code byte.
    UnknownCode,
    // A number of the record is cut or malformed.
    InField(RecordFault),
}

impl From<RecordFault> for StepFault {
    ghost from_gives = { λ fault whole. whole ≡ InField fault };

    fn from(value: RecordFault) -> StepFault {
        StepFault::InField(value)
    }
}

// The number that a fault is reported by.
impl From<StepFault> for u8 {
    ghost from_gives = { λ fault number. number ≡ number_of fault };

    fn from(value: StepFault) -> u8 {
        match value {
            StepFault::UnknownCode => 3,
            StepFault::InField(fault) => Told::from(fault).number,
        }
    }
}

// A record that ends the run: its code byte, which may be any, and its fault.
#[derive(Clone, Copy, PartialEq, Eq, Debug)]
pub struct BadStep {
    pub code: u8,
    pub why: StepFault,
}

// So many numbers, and the offset just past them.
fn read_numbers<const N: usize>(mut rest: Rest) -> Result<([u32; N], usize), RecordFault>
    ensures { result ≡ numbers_in N (left_of rest.entry) }
{
    let mut numbers = [0; N];
    for number in numbers.iter_mut() {
        let (field, behind) = read_field(rest)?;
        *number = field.value;
        rest = behind;
    }
    Ok((numbers, rest.place))
}

// A change that has no number of its own.
fn read_change(change: Change, rest: Rest) -> Result<(Step, usize), RecordFault>
    ensures { result ≡ change_in change (left_of rest.entry) }
{
    let ([number], end) = read_numbers::<1>(rest)?;
    Ok((Step::Change { number, change }, end))
}

// The numbers of a call.
fn read_step(code: Code, rest: Rest) -> Result<(Step, usize), RecordFault>
    ensures { result ≡ step_in code (left_of rest.entry) }
{
    match code {
        Code::Admit => {
            let ([number, rate, period], end) = read_numbers::<3>(rest)?;
            let asked = Reservation {
                number,
                rate,
                period,
            };
            Ok((Step::Admit { asked }, end))
        }
        // the next two differ in the case that they make; a function that took it would need a clause on it
        Code::Rate => {
            let ([number, rate], end) = read_numbers::<2>(rest)?;
            let change = Change::Rate(rate);
            Ok((Step::Change { number, change }, end))
        }
        Code::Period => {
            let ([number, period], end) = read_numbers::<2>(rest)?;
            let change = Change::Period(period);
            Ok((Step::Change { number, change }, end))
        }
        Code::Wait => read_change(Change::Wait, rest),
        Code::Wake => read_change(Change::Wake, rest),
        Code::Finish => read_change(Change::Finish, rest),
        Code::Turn => {
            let ([count], end) = read_numbers::<1>(rest)?;
            Ok((Step::Turn { count }, end))
        }
    }
}

// A code byte and what stands behind it; the code is judged before the numbers.
fn read_record(byte: u8, rest: Rest) -> Result<(Step, usize), StepFault>
    ensures { result ≡ record_in byte (left_of rest.entry) }
{
    let code = Code::try_from(byte)?;
    Ok(read_step(code, rest)?)
}

// The call record at an offset of the input, with the offset just past it, or none at the input's end. It opens as `sheet::records::record_at` does;
// a function for both would take the reading behind the byte as a closure, and its contract would be longer than the lines that they share.
pub fn step_at(input: &[u8], place: usize) -> Result<Option<(Step, usize)>, BadStep>
    ensures { result ≡ step_at input.now place }
{
    let Some([byte, bytes @ ..]) = input.get(place..) else {
        return Ok(None);
    };
    let rest = Rest {
        bytes,
        place: place + 1,
    };
    // a match, since of a closure in `map_err` no clause followed
    match read_record(*byte, rest) {
        Ok(read) => Ok(Some(read)),
        Err(why) => Err(BadStep { code: *byte, why }),
    }
}

// The call records from an offset of the input on. A bad one is the last.
// A twin of `sheet::walk::Records`: one iterator over both needs a trait for reader, fault and value, which is longer than a second `next`.
#[derive(Clone, Copy)]
pub(crate) struct Calls<'a> {
    pub(crate) input: &'a [u8],
    pub(crate) place: usize,
}

impl<'a> Iterator for Calls<'a> {
    type Item = Result<Step, BadStep>;

    ghost next_gives = { λ s given t. Gives (script_from s.input.now s.place) given (script_from t.input.now t.place) };

    ghost remaining = { λ s. at_most (length s.input.now - s.place) };

    #[tactic(auto, using(crate::proofs::Advancing::goes_on, crate::proofs::Advancing::gives_step, crate::proofs::Advancing::gives_none, crate::proofs::Advancing::gives_bad, crate::proofs::Advancing::bad_inside))]
    fn next(&mut self) -> Option<Self::Item> {
        match step_at(self.input, self.place) {
            Ok(Some((step, end))) => {
                self.place = end;
                Some(Ok(step))
            }
            Ok(None) => None,
            Err(bad) => {
                self.place = self.input.len();
                Some(Err(bad))
            }
        }
    }
}
