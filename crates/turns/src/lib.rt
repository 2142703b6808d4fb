#![tactic(auto)]
// One record of a run: what it asks for is done and its line written, or, where the line does not fit, nothing.
mod measure;
pub mod one_record;
mod tell;
