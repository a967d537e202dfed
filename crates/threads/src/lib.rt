// The threads of a state: run masks, task blocks, the ready queue, what each kind of event does to them, and what a tick does to the running one.
#![tactic(auto)]

pub mod actions;
pub mod masks;
pub mod queue;
pub mod tasks;
pub mod turns;
