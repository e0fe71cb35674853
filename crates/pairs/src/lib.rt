// Masks and tests, the four pairs that they make with the word behind them, and the roles of a bundle.
// It asks the decoder's readings and knows no layout, no region and no ledger.
#![tactic(auto)]

pub mod mask;
pub mod pair;
pub mod role;
