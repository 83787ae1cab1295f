// A job whose plan enters from the back: its lines, its shelf, its plan and its walk.
ghost use Rattle.std.specs.Prelude.{◌≡◌, take};
ghost use Rattle.values.specs.Shelves.{ShelfOf};
ghost use Rattle.values.specs.FixedLists.{items};
ghost use Rattle.sheets_test.specs.Jobs.{top_job, top_walk};

use crate::walk_of;
use rules::{Action, Direction, OrderLine, Passage};
use values::{PlanValue, RunList, Shelf, Stage};

// Its order lines.
pub fn lines() -> [OrderLine; 8]
    ensures { top_job.lines ≡ take 3 result }
{
    let mut lines = [OrderLine {
        article: 3,
        quantity: 3,
    }; 8];
    lines[1] = OrderLine {
        article: 5,
        quantity: 1,
    };
    lines[2] = OrderLine {
        article: 4,
        quantity: 1,
    };
    lines
}

// What its cells hold, and that its aisles are open.
pub fn shelf() -> Shelf
    ensures { ShelfOf top_job result }
{
    let mut line = [None; 384];
    line[0] = Some(1);
    line[1] = Some(1);
    line[25] = Some(0);
    line[48] = Some(0);
    line[49] = Some(2);
    let mut quantity = [0; 384];
    quantity[0] = 2;
    quantity[1] = 1;
    quantity[25] = 1;
    quantity[48] = 2;
    quantity[49] = 2;
    Shelf {
        line,
        quantity,
        open: [true; 16],
    }
}

// Its plan: ONCE 11 TOP 2 11 ONCE.
pub fn plan() -> PlanValue
    ensures { result.aisles ≡ 3 }
{
    let mut stages = [Stage {
        action: Action::Once,
        passage: Passage::P11,
    }; 16];
    stages[1] = Stage {
        action: Action::Top(2),
        passage: Passage::P11,
    };
    stages[2] = Stage {
        action: Action::Once,
        passage: Passage::P00,
    };
    PlanValue { aisles: 3, stages }
}

// Its walk: B, R, F, B, R, F, L.
pub fn runs() -> RunList
    ensures { items result ≡ top_walk }
{
    walk_of(&[
        (Direction::Back, 3),
        (Direction::Right, 1),
        (Direction::Front, 1),
        (Direction::Back, 1),
        (Direction::Right, 1),
        (Direction::Front, 3),
        (Direction::Left, 2),
    ])
}
