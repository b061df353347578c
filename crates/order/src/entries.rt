ghost use Rattle.std.specs.Prelude.{◌≡◌};
ghost use Rattle.order.specs.Orders.{in_range, slot_of};

// What a ready list holds of a task: enough to say who comes first.
#[derive(Clone, Copy, PartialEq, Eq, Debug)]
pub struct Entry {
    pub number: u32,
    pub deadline: u64,
    pub rate: u32,
}

// A task number is 1 to 64.
pub fn is_task_number(number: u32) -> bool
    ensures { result ≡ in_range number }
{
    (1..=64).contains(&number)
}

// The place of a task number's slot among the 64; none of a number that is no task number.
pub fn slot_of(number: u32) -> Option<usize>
    ensures { result ≡ slot_of number }
{
    is_task_number(number).then(|| (number - 1) as usize)
}
