#![tactic(auto)]
// The sparse matrix, after src/sparse_matrix.rs: every operation on a lent store, each call checking the store first.
ghost use Rattle.std.specs.Prelude.{◌≡◌};
ghost use Rattle.store_head.specs.Lent.{head_of};
ghost use Rattle.making.specs.Making.{empty_head};

mod alter;
mod ask;
mod checked;
mod index;
mod list;
mod shape;

pub use alter::{add_assign_rows, set, swap_columns, swap_rows};
pub use ask::{count_ones, get, get_sub_row, size, sub_row};
pub use checked::well_formed;
pub use index::{
    disable_column_access_acceleration, enable_column_access_acceleration,
    hint_column_dense_and_frozen,
};
pub use list::{get_ones_in_column, get_row_iter, query_non_zero_columns};
pub use shape::{new, resize};
pub use store_head::{
    CellsMut, ColumnMapsMut, IndexMut, Numbers, Refusal, RowMapsMut, ShapeMut, Size, Store,
    StoreMut, SumMut,
};
pub use table::Sizes;

// The head of "a 0 by 0 store".
pub fn empty() -> Numbers
    ensures { head_of result ≡ empty_head }
{
    Numbers::default()
}
