#![tactic(auto)]
// The operations that change the matrix's shape, on a store that is known to be well-formed: FREEZE and RESIZE.
pub mod freeze;
pub mod resize;
