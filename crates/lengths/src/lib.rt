#![tactic(auto)]
// How long the line of a list answer is, known before a number of the list is written anywhere: a run has to know whether a line fits before it writes.
mod columns;
mod number;
mod rows;
mod tails;

pub use columns::column_length;
pub use rows::row_length;
pub use tails::tail_length;
