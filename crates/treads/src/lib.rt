// The treads of a plan, one number for each edge: how often the plan treads it.
#![tactic(auto)]

ghost use Rattle.std.specs.Prelude.{◌≡◌, suc, ◌≤◌, length};
ghost use Rattle.rules.specs.Plans.{aisle_treads, front_treads, back_treads};
ghost use Rattle.treads.specs.Filling.{with_aisle, with_passage, with_aisles};

use flood::{HEIGHTS, POINTS};
use rules::{Action, Layout, Passage};
use values::Stage;

// The numbers of edges: towards the back, and to the right (points: crate `flood`).
pub const EDGES: usize = 2 * POINTS;

// How often an action treads the edge between the heights k and k + 1.
pub fn aisle_treads(action: Action, k: usize) -> u8
    ensures { result ≡ aisle_treads action k }
{
    match action {
        Action::Void => 0,
        Action::Bottom(i) => { if k < i { 2 } else { 0 } }
        Action::Top(i) => { if i <= k { 2 } else { 0 } }
        Action::Gap(h, i) => { if k < h || i <= k { 2 } else { 0 } }
        Action::Once => 1,
        Action::Twice => 2,
    }
}

// How often a passage treads the front cross-aisle.
pub fn front_treads(passage: Passage) -> u8
    ensures { result ≡ front_treads passage }
{
    match passage {
        Passage::P00 | Passage::P20 => 0,
        Passage::P11 => 1,
        Passage::P02 | Passage::P22 => 2,
    }
}

// How often it treads the back cross-aisle.
pub fn back_treads(passage: Passage) -> u8
    ensures { result ≡ back_treads passage }
{
    match passage {
        Passage::P00 | Passage::P02 => 0,
        Passage::P11 => 1,
        Passage::P20 | Passage::P22 => 2,
    }
}

// The treads of one aisle: its edges start at the heights 0 to `cells`. `left` is a slice, whose length stays known over a loop and a
// call, as an array's does not; and the bounds are asked of each function, since a Layout alone need not keep them.
fn fill_aisle(cells: usize, action: Action, aisle: usize, left: &mut [u8])
    requires { (cells ≤ 24) × (aisle ≤ 16) × (length left.old ≡ 884) }
    ensures { left.new ≡ with_aisle action aisle (suc cells) left.old }
{
    for k in 0..=cells {
        left[HEIGHTS * aisle + k] = aisle_treads(action, k);
    }
}

// The treads behind one aisle: to the right of its front crossing, at height 0, and of its back crossing, at height cells + 1.
#[tactic(auto, unfolding(crate::specs::Filling::with_passage))]
fn fill_passage(cells: usize, passage: Passage, aisle: usize, left: &mut [u8])
    requires { (cells ≤ 24) × (aisle ≤ 16) × (length left.old ≡ 884) }
    ensures { left.new ≡ with_passage cells passage aisle left.old }
{
    let front = POINTS + HEIGHTS * aisle;
    left[front] = front_treads(passage);
    left[front + cells + 1] = back_treads(passage);
}

// The treads of a plan, by its stages.
pub fn fill(layout: Layout, stages: &[Stage; 16], left: &mut [u8])
    requires { (layout.cells ≤ 24) × (layout.aisles ≤ 16) × (length left.old ≡ 884) }
    ensures { left.new ≡ with_aisles layout.aisles layout.cells stages.now layout.aisles left.old }
{
    for aisle in 1..=layout.aisles {
        let stage = stages[aisle - 1];
        fill_aisle(layout.cells, stage.action, aisle, left);
        if aisle < layout.aisles {
            fill_passage(layout.cells, stage.passage, aisle, left);
        }
    }
}
