// A host's numbers as a head, and answers as a host's numbers.
ghost use Rattle.std.specs.Prelude.{◌≡◌, ◌*◌, get_or};
ghost use Rattle.laws.specs.Words.{words_for};
ghost use Rattle.clatterthaw_host.specs.Crossing.{numbers_of};
ghost use Rattle.clatterthaw_host.specs.Told.{plain_numbers, of_number, of_sized, of_listed, of_words, of_changed, of_ran, FewWords};

use crate::{PlainChanged, PlainHead, PlainList, PlainNumber, PlainRan, PlainSize, PlainWords};
use script::Stand;
use store_head::{Numbers, Refusal, Size};

// The head that a host's numbers are.
pub fn head(p: PlainHead) -> Numbers
    ensures { result ≡ numbers_of p }
{
    Numbers {
        h: p.h,
        w: p.w,
        n: p.n,
        slots: p.slots,
        made: p.made,
        on: p.on != 0,
    }
}

// A head as a host's numbers.
fn plain(d: Numbers) -> PlainHead
    ensures { result ≡ plain_numbers d }
{
    PlainHead {
        h: d.h,
        w: d.w,
        n: d.n,
        slots: d.slots,
        made: d.made,
        on: u32::from(d.on),
    }
}

// GET, COUNT.
pub fn number(x: Result<u32, Refusal>) -> PlainNumber
    ensures { result ≡ of_number x }
{
    match x {
        Ok(value) => PlainNumber { no: 0, value },
        Err(k) => PlainNumber {
            no: k.number(),
            value: 0,
        },
    }
}

// SIZE.
pub fn size(x: Result<Size, Refusal>) -> PlainSize
    ensures { result ≡ of_sized x }
{
    match x {
        Ok(Size { h, w, n }) => PlainSize { no: 0, h, w, n },
        Err(k) => PlainSize {
            no: k.number(),
            h: 0,
            w: 0,
            n: 0,
        },
    }
}

// ITER, TAILONES, COLONES.
pub fn list(x: Result<u32, Refusal>) -> PlainList
    ensures { result ≡ of_listed x }
{
    match x {
        Ok(count) => PlainList { no: 0, count },
        Err(k) => PlainList {
            no: k.number(),
            count: 0,
        },
    }
}

// WORDS, whose part begins at `start`.
pub fn words(x: Result<&[u64], Refusal>, start: usize) -> PlainWords
    requires { FewWords x }
    ensures { result ≡ of_words start x.entry }
{
    match x {
        Ok(part) => PlainWords {
            no: 0,
            count: part.len() as u32,
            start,
        },
        Err(k) => PlainWords {
            no: k.number(),
            count: 0,
            start: 0,
        },
    }
}

// Where the part of row r begins in the lent words, "from home row times words per row"; 0 where there is no such row.
pub fn part_start(row_homes: &[u32], n: u32, r: u32) -> usize
    ensures { result ≡ get_or row_homes.now r 0 * words_for n }
{
    let at = r as usize;
    if row_homes.len() <= at {
        return 0;
    }
    let y = row_homes[at] as usize;
    y * tail::words_for(n)
}

// What a change leaves of the head p: `d` where it is done.
pub fn changed(p: PlainHead, d: Numbers, told: Result<(), Refusal>) -> PlainChanged
    ensures { result ≡ of_changed p d told }
{
    match told {
        Ok(()) => PlainChanged {
            head: plain(d),
            no: 0,
        },
        Err(why) => PlainChanged {
            head: p,
            no: why.number(),
        },
    }
}

// What a run leaves of the head p: `d` where it is not refused.
pub fn ran(p: PlainHead, d: Numbers, told: Result<Stand, Refusal>) -> PlainRan
    ensures { result ≡ of_ran p d told }
{
    match told {
        Ok(Stand { done, written }) => PlainRan {
            head: plain(d),
            no: 0,
            done,
            written,
        },
        Err(k) => PlainRan {
            head: p,
            no: k.number(),
            done: 0,
            written: 0,
        },
    }
}
