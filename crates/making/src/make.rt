// MAKE: the one call that takes any lent numbers. It clears every lent store buffer to its end, so that all of it counts as unused.
// `inline(always)`: a store handed by reference to a function that is not inlined is laid out in memory first (docs/DECISIONS.md, "Form").
ghost use Rattle.std.specs.Prelude.{◌≡◌, []};
ghost use Rattle.table.specs.declared.Op.TheVariants.{Make};
ghost use Rattle.table.specs.Room.{short};
ghost use Rattle.model.specs.Store.{lent_of};
ghost use Rattle.model.specs.Step.{step, inner, result_of};
ghost use Rattle.store_head.specs.Lent.{seen, lent, full_of, SameSlices};
ghost use Rattle.store_head.specs.Told.{change_told};
ghost use Rattle.store_head.specs.Refused.{refusal_of, refused_by};
ghost use Rattle.making.specs.Making.{outside};

use store_head::{Numbers, Refusal, Store, StoreMut};
use table::Sizes;

// Refusal 2: whether the sizes are outside the limits.
fn outside_limits(p: Sizes) -> bool
    ensures { result ≡ outside p }
{
    (Numbers::MAX_HEIGHT < p.h)
        | (Numbers::MAX_WIDTH < p.w)
        | (p.w < p.n)
        | (Numbers::MAX_SLOTS < p.slots)
}

// Refusal 3: whether one of the buffers is too short. Products of two 32-bit numbers fit a usize.
#[inline(always)]
fn too_short(store: &Store, p: Sizes) -> bool
    ensures { result ≡ short (lent_of (full_of (seen store.now) [])) p }
{
    let h = p.h as usize;
    let w = p.w as usize;
    let slots = h * (p.slots as usize);
    let words = h * tail::words_for(p.n);
    (store.slots.len() < slots)
        | (store.counts.len() < h)
        | (store.row_homes.len() < h)
        | (store.row_logicals.len() < h)
        | (store.column_homes.len() < w)
        | (store.column_logicals.len() < w)
        | (store.marks.len() < w)
        | (store.starts.len() < w + 1)
        | (store.words.len() < words)
}

// The refusal of MAKE: 2 outside the limits, 3 where a buffer is too short. The numbers in the buffers count for nothing.
#[inline(always)]
pub fn refuse_make(store: &Store, p: Sizes) -> Result<(), Refusal>
    ensures { refused_by result ≡ refusal_of (inner (Make p) (full_of (seen store.now) [])) }
{
    if outside_limits(p) {
        return Err(Refusal::Size);
    }
    if too_short(store, p) {
        return Err(Refusal::Buffers);
    }
    Ok(())
}

// MAKE: "all zero, homes equal, index off", or refused with 2 or 3. `slots` of the sizes are the slots for each row.
#[inline(always)]
pub fn new(store: &mut StoreMut, p: Sizes) -> Result<(), Refusal>
    ensures told { change_told result (lent store.new) ≡ result_of (full_of (lent store.old) []) (step (Make p) (full_of (lent store.old) [])) }
    ensures same { SameSlices store.old store.new }
{
    refuse_make(&store.view(), p)?;
    store.slots.fill(0);
    store.counts.fill(0);
    store.words.fill(0);
    store.marks.fill(0);
    store.starts.fill(0);
    store.entries.fill(0);
    permutation::make_identity(store.row_homes, p.h as usize);
    permutation::make_identity(store.row_logicals, p.h as usize);
    permutation::make_identity(store.column_homes, p.w as usize);
    permutation::make_identity(store.column_logicals, p.w as usize);
    store.head = Numbers {
        h: p.h,
        w: p.w,
        n: p.n,
        slots: p.slots,
        made: p.w,
        on: false,
    };
    Ok(())
}
