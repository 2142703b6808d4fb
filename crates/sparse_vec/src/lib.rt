#![tactic(auto)]
// One sparse row, after src/sparse_vec.rs: the home columns that hold one, strictly rising, in a stretch of lent numbers.
mod add;
mod change;
mod find;
mod mapped;
mod passes;
mod row;

pub use add::{add_assign, sum_fits};
pub use change::{insert, remove};
pub use find::{Narrow, get, get_near, key_to_internal_index};
pub use mapped::{count_in, retain, sound, walk};
pub use row::Row;
