// The rules of a word in its bundle, over the decoder's answers: nothing here reads a region's bytes or
// a ledger. The role of a direct target is handed in, so the check takes it from the code and the patch
// from the ledger and the new bundles.
#![tactic(auto)]

pub mod layout;
pub mod outcome;
pub mod region;
pub mod rule;
