// The decoder: what a word, and a bundle of four, says. It stands alone below the checker and knows
// no layout, no region and no ledger.
#![tactic(auto)]

mod access;
pub mod bundle;
pub mod immediate;
pub mod place;
pub mod question;
pub mod reading;
pub mod word;
