#![tactic(auto)]
// The operations that change cells, on a store that is known to be well-formed: SET and ADD.
pub mod add;
pub mod set;
