// The cells of the stock records that were read, marked as bits.
#![tactic(auto)]

ghost use Rattle.std.specs.Prelude.{◌≡◌, ◌≤◌};
ghost use Rattle.std.specs.Bool.{OnTrue};
ghost use Rattle.rules.specs.Store.{within};
ghost use Rattle.marks.specs.Marking.{no_marks, has_bit, mark_of};

use rules::StockRecord;

// A number from a to b.
#[tactic(auto, unfolding(rules::specs::Store::within))]
pub fn is_within(a: usize, b: usize, n: usize) -> bool
    ensures { result ≡ within a b n }
{
    (a..=b).contains(&n)
}

// The cells of the records that were read: each aisle's as bits of a u32, and whether a record's bit was set already. (The flag says
// nothing of the bits, which count on, so it is no `Option` of them.)
#[derive(Clone, Copy)]
pub struct Marks {
    pub seen: [u32; 16],
    pub twice: bool,
}

// No cell seen.
pub fn no_marks() -> Marks
    ensures { result ≡ no_marks }
{
    let seen = [0u32; 16];
    Marks { seen, twice: false }
}

// Whether the record's cell has a bit.
#[tactic(auto, unfolding(crate::specs::Marking::has_bit))]
fn has_bit(row: StockRecord) -> bool
    ensures value { result ≡ has_bit row }
    ensures bounds { OnTrue result ((1 ≤ row.aisle) × (row.aisle ≤ 16) × (1 ≤ row.cell) × (row.cell ≤ 24)) }
{
    is_within(1, 16, row.aisle) && is_within(1, 24, row.cell)
}

// The record's cell is tested and set by shift and mask. A record with no bit, out of all bounds, is passed by.
pub fn mark(marks: Marks, row: StockRecord) -> Marks
    ensures { result ≡ mark_of marks row }
{
    if !has_bit(row) {
        return marks;
    }
    let aisle = row.aisle - 1;
    let cell = row.cell - 1;
    let mut seen = marks.seen;
    let cells = seen[aisle];
    let again = (cells >> cell) & 1 == 1;
    seen[aisle] = cells | (1 << cell);
    // `|` of two values at hand: with `||` the marks behind the record would be two cases of one equation.
    let twice = marks.twice | again;
    Marks { seen, twice }
}
