// The line of a row's tail columns that hold one, which TAILONES answers.
ghost use Rattle.std.specs.Prelude.{◌≡◌};
ghost use Rattle.table.specs.Run.{ok};
ghost use Rattle.lines.specs.Line.{line_long};
ghost use Rattle.tail.specs.Ones.{word_ones};
ghost use Rattle.tail.specs.Tail.{tail_ones};
ghost use Rattle.lengths.specs.Length.{Takes, CanMeasureTail};

use crate::number;

// How long the line of the tail columns of home row y that hold one is, where the first tail column has the number base.
pub fn tail_length(ws: &[u64], n: u32, y: usize, base: u32) -> usize
    requires { CanMeasureTail ws.now n y base }
    ensures { result ≡ line_long (ok (tail_ones ws.now n y base)) }
{
    let s = tail::words_for(n);
    let row = y * s;
    let mut long = 3;
    let mut first = base;
    let mut shift = tail::padding_of(n); // goes out of the first word; no later word has padding
    for word in &ws[row..row + s] {
        long += word_length(*word >> shift, first);
        first += 64 - shift;
        shift = 0;
    }
    long
}

// How many bytes the numbers base + k of the ones k of a word take.
fn word_length(word: u64, base: u32) -> usize
    ensures { Takes (word_ones word base) result }
{
    let mut w = word;
    let mut long = 0;
    while w != 0 {
        long += number::number_length((base as u64) + (w.trailing_zeros() as u64));
        // The lowest one goes out (01: never by trying 64 bits); the library has no iterator over a word's ones.
        w &= w - 1;
    }
    long
}
