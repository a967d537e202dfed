// The doors of document 01 over a state that the caller keeps as arrays of numbers and lends where it lies. Each asks nothing of its caller:
// whatever the numbers are, it does its work or answers by a number, and a refusal leaves all that was lent as it was. A door reads settings
// and clock from the lent numbers once; from there on everything works in the lent arrays, and the clock is stored at the end.
#![tactic(auto)]

pub mod batch;
pub mod opening;
pub mod queries;
pub mod single;
pub mod start;
pub mod words;
