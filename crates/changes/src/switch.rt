// ON and OFF: the index is built anew, or dropped. Of its buffers only what was used is written: the rest is zero already.
// `inline(always)`: a store handed by reference to a function that is not inlined is laid out in memory first (docs/DECISIONS.md, "Form").
ghost use Rattle.std.specs.Prelude.{◌≡◌, []};
ghost use Rattle.table.specs.declared.Op.TheVariants.{On, Off};
ghost use Rattle.model.specs.WellFormed.{WellFormed};
ghost use Rattle.model.specs.Step.{inner, result_of};
ghost use Rattle.store_head.specs.Lent.{seen, full_of};
ghost use Rattle.store_head.specs.Told.{change_told};
ghost use Rattle.store_head.specs.Refused.{refusal_of, refused_by};
ghost use Rattle.store_head.specs.Writing.{index, SameIndex};

use store_head::{IndexMut, Refusal, Store};

// The refusal of ON: 14 where there are fewer entries than sparse ones.
#[inline(always)]
pub fn refuse_on(store: &Store) -> Result<(), Refusal>
    requires { WellFormed (seen store.now) }
    ensures { refused_by result ≡ refusal_of (inner On (full_of (seen store.now) [])) }
{
    let ones = arraymap::total(store.counts, store.head.h as usize);
    if store.entries.len() < ones {
        return Err(Refusal::Entries);
    }
    Ok(())
}

// ON: "index built anew, all marks exact, also when on", or refused with 14 where there are too few entries.
#[inline(always)]
pub fn enable_column_access_acceleration_in(store: &mut IndexMut) -> Result<(), Refusal>
    requires { WellFormed (index store.old) }
    ensures told { change_told result (index store.new) ≡ result_of (full_of (index store.old) []) (inner On (full_of (index store.old) [])) }
    ensures same { SameIndex store.old store.new }
{
    refuse_on(&store.view())?;
    let head = store.head;
    let h = head.h as usize;
    let k = head.slots as usize;
    let m = head.made as usize;
    // zero where the index was off
    let used = store.starts[m] as usize;
    lent::clear(store.marks, 0, m);
    arraymap::build(
        store.slots,
        store.counts,
        h,
        k,
        m,
        used,
        store.starts,
        store.entries,
    );
    store.head.on = true;
    Ok(())
}

// OFF: "index dropped, marks exact, also when off". Nothing refuses it.
#[inline(always)]
pub fn disable_column_access_acceleration_in(store: &mut IndexMut) -> Result<(), Refusal>
    requires { WellFormed (index store.old) }
    ensures told { change_told result (index store.new) ≡ result_of (full_of (index store.old) []) (inner Off (full_of (index store.old) [])) }
    ensures same { SameIndex store.old store.new }
{
    let made = store.head.made as usize;
    // zero where the index was off
    let used = store.starts[made] as usize;
    lent::clear(store.marks, 0, made);
    lent::clear(store.entries, 0, used);
    lent::clear(store.starts, 0, made + 1);
    store.head.on = false;
    Ok(())
}
