// The job that document 01 walks through: its line, its shelf, its plan and its walk.
ghost use Rattle.std.specs.Prelude.{◌≡◌, take};
ghost use Rattle.values.specs.Shelves.{ShelfOf};
ghost use Rattle.values.specs.FixedLists.{items};
ghost use Rattle.sheets_test.specs.Jobs.{worked_job, worked_walk};

use crate::walk_of;
use rules::{Action, Direction, OrderLine, Passage};
use values::{PlanValue, RunList, Shelf, Stage};

// Its order line.
pub fn lines() -> [OrderLine; 8]
    ensures { worked_job.lines ≡ take 1 result }
{
    [OrderLine {
        article: 9,
        quantity: 1,
    }; 8]
}

// What its cells hold, and that its aisles are open.
pub fn shelf() -> Shelf
    ensures { ShelfOf worked_job result }
{
    let mut line = [None; 384];
    line[24] = Some(0);
    let mut quantity = [0; 384];
    quantity[0] = 1;
    quantity[24] = 5;
    quantity[26] = 1;
    Shelf {
        line,
        quantity,
        open: [true; 16],
    }
}

// Its plan: VOID 02 BOTTOM 1.
pub fn plan() -> PlanValue
    ensures { result.aisles ≡ 2 }
{
    let mut stages = [Stage {
        action: Action::Void,
        passage: Passage::P02,
    }; 16];
    stages[1] = Stage {
        action: Action::Bottom(1),
        passage: Passage::P00,
    };
    PlanValue { aisles: 2, stages }
}

// Its walk: R, B, F, L, a step each.
pub fn runs() -> RunList
    ensures { items result ≡ worked_walk }
{
    walk_of(&[
        (Direction::Right, 1),
        (Direction::Back, 1),
        (Direction::Front, 1),
        (Direction::Left, 1),
    ])
}
