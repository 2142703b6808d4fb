#![tactic(auto)]
// The questions with a number, the sizes or words for an answer, on a store that is known to be well-formed: each refuses by number, in 01's order, or answers.
pub mod query;
pub mod row_tail;
