// What is proved of calls of the doors, over what their callers have in hand: theorems over the contracts of start, event and run, with no
// code of its own.
#![tactic(auto)]
