// LARGEST's test: a turn at a cell with a listed article, and the untrodden part at least as long as every distance between
// neighbouring stops on the trodden parts.
ghost use Rattle.std.specs.Prelude.{◌<◌, ◌≤◌, ℕ, get_or, true, ◌≡◌};
ghost use Rattle.between.specs.Stops.{back_most, first_wide, front_most, largest_by};
ghost use Rattle.rules.specs.Store.{back_height, layout_in_bounds};

use crate::positions::{aisle_length, position_of};
use crate::{Between, HEIGHTS};
use rules::Layout;

// For each turn of a front part the largest distance between neighbouring stops on it, from the front crossing upwards. The loop for
// back parts is another one: stops are listed upwards, so that each part has a definition of its own, and a loop over any iterator of
// heights would need a third, and a proof that it is each of the two.
#[tactic(auto, using(crate::proofs::Few::cells_few))]
fn front_widest(z: Layout, listed: [bool; HEIGHTS]) -> [usize; HEIGHTS]
    requires { layout_in_bounds z ≡ true }
    ensures { (h : ℕ) → h ≤ z.cells → get_or result h 0 ≡ front_most z listed h }
{
    let mut fronts = [0; HEIGHTS];
    let mut last = 0;
    let mut most = 0usize;
    for h in 1..z.cells + 1 {
        if listed[h] {
            let at = position_of(z, h);
            most = most.max(at - last);
            last = at;
        }
        fronts[h] = most;
    }
    fronts
}

// For each turn of a back part the largest distance between neighbouring stops on it, from the back crossing downwards.
#[tactic(auto, using(crate::proofs::Few::cells_few))]
fn back_widest(z: Layout, listed: [bool; HEIGHTS]) -> [usize; HEIGHTS]
    requires { layout_in_bounds z ≡ true }
    ensures { (i : ℕ) → 1 ≤ i → i ≤ back_height z → get_or result i 0 ≡ back_most z listed i }
{
    let mut backs = [0; HEIGHTS];
    let mut last = aisle_length(z);
    let mut most = 0usize;
    for i in (1..z.cells + 1).rev() {
        if listed[i] {
            let at = position_of(z, i);
            most = most.max(last - at);
            last = at;
        }
        backs[i] = most;
    }
    backs
}

// The least height past h, up to the back crossing, whose distance from h is at least `front` and at least the number of `back`
// for it; the one behind them where there is none.
#[tactic(auto, using(crate::proofs::Few::cells_few))]
fn first_back(z: Layout, front: usize, back: [usize; HEIGHTS], h: usize) -> usize
    requires { (layout_in_bounds z ≡ true) × (h < 26) }
    ensures { result ≡ first_wide z front back h }
{
    let top = z.cells + 1;
    let start = position_of(z, h);
    for i in h + 1..top + 1 {
        let gap = position_of(z, i) - start;
        if front <= gap && back[i] <= gap {
            return i;
        }
    }
    top.max(h) + 1
}

// The largest gaps, height by height, by the cells that hold a listed article.
#[tactic(auto, using(crate::proofs::Few::cells_few))]
pub(crate) fn largest_of(z: Layout, listed: [bool; HEIGHTS]) -> Between
    requires { layout_in_bounds z ≡ true }
    ensures { result ≡ largest_by z listed }
{
    let top = z.cells + 1;
    let fronts = front_widest(z, listed);
    let backs = back_widest(z, listed);
    let mut front = [false; HEIGHTS];
    let mut back = [false; HEIGHTS];
    let mut from = [0; HEIGHTS];
    for h in 0..HEIGHTS {
        front[h] = h == 0 || listed[h];
        back[h] = h == top || listed[h];
        from[h] = first_back(z, fronts[h], backs, h);
    }
    Between { front, back, from }
}
