// The test for aisles between the first and the last entered, as data: MIDPOINT's and LARGEST's.
//
// A layout is the definitions' own plain data, and what holds it (a job, an aisle) is given by equations: a struct with the layout's
// bounds as its invariant would stand in those with a proof in it. So each function here asks for the bounds.
#![tactic(auto)]

mod gaps;
mod halves;
pub mod positions;

ghost use Rattle.between.specs.Between.{allows_turns};
ghost use Rattle.between.specs.Stops.{between_by};
ghost use Rattle.rules.specs.Store.{layout_in_bounds};
ghost use Rattle.std.specs.Prelude.{◌<◌, true, ◌≡◌};

use crate::gaps::largest_of;
use crate::halves::halves_of;
use rules::Layout;

// The heights of an aisle: its two ends, and 24 cells at most.
pub const HEIGHTS: usize = 26;

// The test for aisles between the first and the last entered, by height: whether the front part of an action may turn there
// (0: it has none), whether its back part may (the back crossing: it has none), and the least height of a back turn that goes with
// a front turn there.
#[derive(Clone, Copy)]
pub struct Between {
    pub front: [bool; HEIGHTS],
    pub back: [bool; HEIGHTS],
    pub from: [usize; HEIGHTS],
}

impl Between {
    // Whether an action whose front part turns at one height and whose back part turns at another passes the test.
    #[tactic(auto, unfolding(crate::specs::Between::allows_turns))]
    pub fn allows(&self, front: usize, back: usize) -> bool
        requires { (front < 26) × (back < 26) }
        ensures { result ≡ allows_turns self.now front back }
    {
        self.front[front] && self.back[back] && self.from[front] <= back
    }
}

// LARGEST's test (`gaps`) or MIDPOINT's in an aisle, by the cells that hold a listed article.
#[tactic(auto, unfolding(crate::specs::Stops::between_by))]
pub fn between_of(z: Layout, gaps: bool, listed: [bool; HEIGHTS]) -> Between
    requires { layout_in_bounds z ≡ true }
    ensures { result ≡ between_by gaps z listed }
{
    if gaps {
        largest_of(z, listed)
    } else {
        halves_of(z)
    }
}
