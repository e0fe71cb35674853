// The check and the patch, over the decoder's readings and the rules of a word.
//
// The check goes over the code in three passes: it tests every word, in bundles; then, where all is
// well, it writes the roles; then it counts the landings. A word is decoded once in each pass, and it
// and the word before it once more for each branch that lands on it.
//
// The patch reads the ledger once, to bound its counts, and goes over the old and new bundles a bounded
// number of times; it reads none of the other code. Neither call has a buffer of its own.
#![tactic(auto)]

pub mod check;
mod fault;
mod ledger;
pub mod patch;
mod region;
