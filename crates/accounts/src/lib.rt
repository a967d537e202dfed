// The accounts: what each partition was charged in the window, and who has budget left.
#![tactic(auto)]

pub mod charging;
pub mod history;
pub mod solvency;
pub mod window;
