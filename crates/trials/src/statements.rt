// Edge cases of the rules, in one table under one statement.
ghost use Rattle.std.specs.Prelude.{◌≡◌, length};
ghost use Rattle.trials.specs.Edges.{AllHold, cases};

// How many cases the table has; the statement says that they all hold.
pub fn edge_cases() -> usize
    ensures count { result ≡ length cases }
    ensures hold { AllHold cases }
{
    10
}
