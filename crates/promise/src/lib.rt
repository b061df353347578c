// The promise: every task gets what it was sold before each of its deadlines, whatever list of calls a controller is put through.
// Promises: the call that carries out a list of calls says so, whole; the same law stands for calls that are made one by one.
// Knows the meaning of a ready list and the laws of a tie order, and no list or order by name.
#![tactic(auto)]

ghost use Rattle.promise.specs.Kept.{AdmissionKeeps, ChangeKeeps, DeadlineIsMet, EmptyIsFeasible, TurnKeeps};
ghost use Rattle.promise.specs.Promised.{OneByOne};

pub mod carry;

// Holds a statement and computes nothing: that it is proved says that the statement is.
pub fn one_by_one()
    ensures { OneByOne }
{}

// Why every deadline is met: a law on all tasks together that holds at the start and that every call keeps.
pub fn feasibility_is_kept()
    ensures start { EmptyIsFeasible }
    ensures admission { AdmissionKeeps }
    ensures change { ChangeKeeps }
    ensures turn { TurnKeeps }
    ensures deadline { DeadlineIsMet }
{}
