#![tactic(auto)]
// MAKE, on any store.
pub mod make;
