// A number of the sheet: groups of seven bits, the low group first.
ghost use Rattle.std.specs.Prelude.{◌≡◌, ◌≤◌, not, ◌&&◌, ◌==◌, length, IfOk};
ghost use Rattle.sheet.specs.Numbers.{number_read};

#[derive(Clone, Copy, PartialEq, Eq, Debug)]
pub enum NumberFault {
    // The bytes end before the number or inside it.
    Cut(usize),
    // The number has more than four groups, or is not written in its shortest form.
    Malformed(usize),
}

#[derive(Clone, Copy, PartialEq, Eq, Debug)]
pub struct Number {
    pub value: u32,
    // How many bytes it takes.
    pub size: usize,
}

const MOST_GROUPS: usize = 4;

// A byte from here on says that another group follows.
const MORE: u8 = 128;

// A last group of zero adds nothing, so a shorter form exists, unless it is the only group.
fn adds_nothing(byte: u8, index: usize) -> bool
    ensures { result ≡ (byte == 0 && not (index == 0)) }
{
    byte == 0 && index > 0
}

// Reads the number that begins `bytes`; `place` is the offset that a fault names.
pub fn read_number(bytes: &[u8], place: usize) -> Result<Number, NumberFault>
    ensures value { result ≡ number_read bytes.now place }
    ensures within { IfOk result (λ number. number.size ≤ length bytes.now) }
{
    let mut value: u32 = 0;
    let mut weight: u32 = 1;
    let groups = &bytes[..MOST_GROUPS.min(bytes.len())];
    for (index, &byte) in groups.iter().enumerate() {
        if byte < MORE {
            if adds_nothing(byte, index) {
                return Err(NumberFault::Malformed(place));
            }
            return Ok(Number {
                value: value + weight * u32::from(byte),
                size: index + 1,
            });
        }
        value += weight * u32::from(byte - MORE);
        weight *= 128;
    }
    if bytes.len() < MOST_GROUPS {
        Err(NumberFault::Cut(place))
    } else {
        Err(NumberFault::Malformed(place))
    }
}
