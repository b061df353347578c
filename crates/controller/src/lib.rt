// The controller: 64 task slots, a ready list, a clock, and the turns it hands out.
// Promises: every call is an equation for its answer, the tasks, the list and the clock, over any lawful ready list.
// So the clause on the list stands in each contract, though the tie has it too: a reader of one call is to find all four there.
// Each call has a file, with the methods of `TaskMemory` that are its own.
// Knows nothing of how a list is stored, nor of the program that drives it.
#![tactic(auto)]

pub mod admit;
pub mod begin;
pub mod changes;
pub mod faults;
pub mod make;
pub mod memory;
pub mod settle;
pub mod states;
mod store;
pub mod withdraw;
