#![tactic(auto)]
// The questions whose list goes to the answer buffer, on a store that is known to be well-formed: each refuses by number, in 01's order, or answers.
pub mod column_list;
pub mod row_lists;
