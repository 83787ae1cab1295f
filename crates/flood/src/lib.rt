// What can be reached along edges that are left: a flood fill over the points. `left` has the treads left of each edge, `seen` whether
// each point is seen. The points lie below `end`, where the last aisle's numbers end.
#![tactic(auto)]

ghost use Rattle.std.specs.Prelude.{◌≡◌, true, ◌↔◌, ◌-◌, ◌≤◌, ◌<◌, length};
ghost use Rattle.rules.specs.Store.{layout_in_bounds};
ghost use Rattle.flood.specs.Points.{depot_number, next_by};
ghost use Rattle.flood.specs.Flooded.{unseen, AllReached, Ranged, spread_edge, spread_at, swept_up, swept_down, Swept, Flooded, AllSeen};

use rules::{Direction, Layout, Side};

// The numbers of an aisle: a point has the number 26 * aisle + height, where height 0 is the front crossing, then come the cells,
// at most 24, and the back crossing.
pub const HEIGHTS: usize = 26;

// The numbers of points. Aisles count from 1 to 16: a point's number is at least 26 and below 442. An edge towards the back has the
// number of the point where it starts; an edge to the right has that number and 442 more.
pub const POINTS: usize = 17 * HEIGHTS;

// The number of the depot's point: of the front crossing of its aisle, or of the back crossing where the layout says BACK.
pub fn depot_number(z: Layout) -> usize
    requires { layout_in_bounds z ≡ true }
    ensures { result ≡ depot_number z }
{
    let front = HEIGHTS * z.depot;
    let back = front + z.cells + 1;
    let side = z.side();
    match side {
        Side::FrontSide => front,
        Side::BackSide => back,
    }
}

// The number of the point where a step ends. Numbers have no type of their own: a step may lead out of those of points, and only a walk
// that stays in the store never does.
pub fn next_of(at: usize, step: Direction) -> usize
    requires { (26 ≤ at) × (at < 442) }
    ensures { result ≡ next_by step at }
{
    match step {
        Direction::Back => at + 1,
        Direction::Front => at - 1,
        Direction::Left => at - HEIGHTS,
        Direction::Right => at + HEIGHTS,
    }
}

// Two points that an edge joins, of which n treads are left: where one is seen, the other is too. Whether a point is seen newly.
fn spread_edge(n: u8, a: usize, b: usize, seen: &mut [bool]) -> bool
    requires { 0 < n → (a < length seen.old) × (b < length seen.old) }
    ensures seen_after { seen.new ≡ spread_edge n a b seen.old }
    ensures fewer { unseen seen.new ≤ unseen seen.old }
    ensures news { (result ≡ true) ↔ (unseen seen.new < unseen seen.old) }
{
    if n == 0 || seen[a] == seen[b] {
        return false;
    }
    seen[a] = true;
    seen[b] = true;
    true
}

// The edges of a store: the treads that are left of each, and the number where its points end.
#[derive(Clone, Copy)]
struct Edges<'a> {
    left: &'a [u8],
    end: usize,
    ghost ranged: { Ranged left.now end },
}

impl Edges<'_> {
    // Spreads along the edges towards the back and to the right of one point. Whether a point is seen newly.
    fn spread(&self, at: usize, seen: &mut [bool]) -> bool
        requires { (at < 442) × (length seen.old ≡ 442) }
        ensures seen_after { seen.new ≡ spread_at self.now.left.now at seen.old }
        ensures news { (result ≡ true) ↔ (unseen seen.new < unseen seen.old) }
    {
        let along = spread_edge(self.left[at], at, at + 1, seen);
        let across = spread_edge(self.left[POINTS + at], at, at + HEIGHTS, seen);
        along | across
    }

    // Sweeps the points upwards and then downwards. Whether a point is seen newly.
    fn sweep(&self, seen: &mut [bool]) -> bool
        requires { length seen.old ≡ 442 }
        ensures seen_after { seen.new ≡ swept_down self.now.left.now (self.now.end - 26) (swept_up self.now.left.now (self.now.end - 26) seen.old) }
        ensures grown { Swept self.now.left.now self.now.end seen.old seen.new result }
    {
        let mut news = false;
        for at in HEIGHTS..self.end {
            news |= self.spread(at, seen);
        }
        for at in (HEIGHTS..self.end).rev() {
            news |= self.spread(at, seen);
        }
        news
    }

    // Sweeps until nothing is new.
    fn flood(&self, seen: &mut [bool])
        requires { length seen.old ≡ 442 }
        ensures { Flooded self.now.left.now seen.old seen.new }
    {
        while self.sweep(seen) {}
    }

    // Whether all that is left starts at a point that is seen.
    #[tactic(auto, unfolding(crate::specs::Flooded::AllSeen))]
    fn all_start_at(&self, seen: &[bool]) -> bool
        requires { length seen.now ≡ 442 }
        ensures { (result ≡ true) ↔ AllSeen self.now.left.now seen.now self.now.end }
    {
        for at in HEIGHTS..self.end {
            if !seen[at] && (0 < self.left[at] || 0 < self.left[POINTS + at]) {
                return false;
            }
        }
        true
    }
}

// Whether all that is left can be reached from a point.
pub fn reaches(left: &[u8], at: usize, end: usize) -> bool
    requires { (at < 442) × Ranged left.now end }
    ensures { (result ≡ true) ↔ AllReached left.now at }
{
    let edges = Edges { left, end };
    let mut seen = [false; POINTS];
    seen[at] = true;
    edges.flood(&mut seen);
    edges.all_start_at(&seen)
}
