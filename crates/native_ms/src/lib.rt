// The native mark-sweep space, as in the Rust's files; `checks` has the tests of the calls.
//
// p is the parameters, a an address, b a block, i a place in a list, v a value to store. global, block_list, memory and checks also name what
// they are lent by a letter or two: w the table words, st the state bytes, m the marks, h the heap. All else is spelled out: a list is by
// its number, a link is an address of a block.
//
// What is lent for writing is handed on slice by slice, each as a step needs it, with what is known of its length: of a struct of `&mut` every
// step would also have to promise that its fields stay the same references, and where one was made for a call (tried) the proof did not learn
// what the call left behind them. What is lent for reading alone is a struct where more than one step reads it (sound/known.rt).
#![tactic(auto)]

mod address;
pub mod allocator;
mod block;
pub mod block_list;
mod checks;
pub mod classes;
pub mod free_chain;
pub mod free_counts;
pub mod free_list_allocator;
pub mod global;
mod memory;
mod params;
pub mod run;
pub mod size_class;
mod sound;
