#![tactic(auto)]
// The operations that change maps and the index, on a store that is known to be well-formed: SWAPR, SWAPC, ON, OFF.
pub mod swap;
pub mod switch;
