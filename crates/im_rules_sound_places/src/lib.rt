//! From external declarations that the rules type to what is known behind them.
#![tactic(auto)]

mod laws;

pub use laws::places_law;
