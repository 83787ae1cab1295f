// How far the parts of an action reach, what it costs, and the test for aisles between.
ghost use Rattle.std.specs.Prelude.{◌<◌, ◌≤◌, true, ◌≡◌};
ghost use Rattle.demand.specs.Maps.{heights};
ghost use Rattle.aisles.specs.Actions.{back_cost, back_of, front_cost, front_of, parts_between, parts_length, passes_between};
ghost use Rattle.rules.specs.Lengths.{action_length};
ghost use Rattle.rules.specs.Store.{layout_in_bounds};

use crate::layers::Aisle;
use between::Between;
use between::positions::{aisle_length, position_of};
use rules::{Action, Kind, Layout};

// The heights that the front and the back part of an action reach; 0 and the back crossing for none.
#[derive(Clone, Copy, PartialEq, Eq)]
pub struct Reach {
    pub front: usize,
    pub back: usize,
}

// How far the parts of an action reach, in an aisle with so many cells.
pub fn reach_of(cells: usize, action: Action) -> Reach
    requires { cells ≤ 24 }
    ensures { (result.front ≡ front_of cells action) × (result.back ≡ back_of cells action) }
{
    let top = cells + 1;
    let (front, back) = match action {
        Action::Void => (0, top),
        Action::Bottom(i) => (i, top),
        Action::Top(i) => (0, i),
        Action::Gap(h, i) => (h, i),
        Action::Once | Action::Twice => (cells, top),
    };
    Reach { front, back }
}

// What the front part of a kind of action costs: there and back, or the whole aisle once or twice.
pub(crate) fn front_cost(z: Layout, kind: Kind, h: usize) -> usize
    requires { layout_in_bounds z ≡ true }
    ensures { (result ≡ front_cost z kind h) × (result ≤ 2080) }
{
    match kind {
        Kind::Once => aisle_length(z),
        Kind::Twice => 2 * aisle_length(z),
        _ => 2 * position_of(z, h),
    }
}

// What the back part costs: there and back, from the back crossing.
pub(crate) fn back_cost(z: Layout, i: usize) -> usize
    requires { layout_in_bounds z ≡ true }
    ensures { (result ≡ back_cost z i) × (result ≤ 2080) }
{
    2 * (aisle_length(z) - position_of(z, i))
}

impl Reach {
    // What the parts of a kind of action cost that reach so far.
    pub fn length(self, z: Layout, kind: Kind) -> usize
        requires { layout_in_bounds z ≡ true }
        ensures { (result ≡ parts_length z kind self.front self.back) × (result ≤ 4160) }
    {
        front_cost(z, kind, self.front) + back_cost(z, self.back)
    }

    // Whether an action of a kind whose parts reach so far passes the test for aisles between: it is walked there and back, and its two
    // turns pass.
    pub fn passes_between(self, between: Between, kind: Kind) -> bool
        requires { (self.front < heights) × (self.back < heights) }
        ensures { result ≡ parts_between between kind self.front self.back }
    {
        match kind {
            Kind::Once | Kind::Twice => false,
            _ => between.allows(self.front, self.back),
        }
    }
}

// What an action adds to the length of a plan: what its two parts cost.
pub fn action_length(z: Layout, action: Action) -> usize
    requires { layout_in_bounds z ≡ true }
    ensures { (result ≡ action_length z action) × (result ≤ 4160) }
{
    reach_of(z.cells, action).length(z, action.kind())
}

impl Aisle {
    // Whether an action passes the test for aisles between: it is walked there and back, and its two turns pass.
    #[tactic(auto, unfolding(crate::specs::Actions::passes_between))]
    pub fn passes_between(self, action: Action) -> bool
        requires { (front_of self.layout.cells action < heights) × (back_of self.layout.cells action < heights) }
        ensures { result ≡ passes_between self.between self.layout.cells action }
    {
        let between = &self.between;
        let cells = self.layout.cells;
        match action {
            Action::Void => between.allows(0, cells + 1),
            Action::Bottom(h) => between.allows(h, cells + 1),
            Action::Top(i) => between.allows(0, i),
            Action::Gap(h, i) => between.allows(h, i),
            Action::Once | Action::Twice => false,
        }
    }
}
