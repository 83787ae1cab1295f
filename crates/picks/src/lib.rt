// The picks: through aisles, then cells, upwards; each passed cell gives what its line still lacks, as far as stock goes.
#![tactic(auto)]

ghost use Rattle.std.specs.Prelude.{◌≡◌, ◌≤◌, ◌<◌, get_or, None, IfSome};
ghost use Rattle.rules.specs.Jobs.{Job};
ghost use Rattle.rules.specs.Plans.{passes_cell};
ghost use Rattle.rules.specs.Picks.{picks_of};
ghost use Rattle.values.specs.Shelves.{cell_number};
ghost use Rattle.values.specs.FixedLists.{items};
ghost use Rattle.values.specs.Values.{plan_of};
ghost use Rattle.picks.specs.Picking.{Asked, PickedAt};

use rules::{Action, OrderLine, Pick};
use shelves::cell_number;
use values::{PickList, PlanValue, Shelf};

// Whether an action passes a cell of its aisle.
pub fn passes(action: Action, cell: usize) -> bool
    ensures { result ≡ passes_cell action cell }
{
    match action {
        Action::Void => false,
        Action::Bottom(i) => cell <= i,
        Action::Top(i) => i <= cell,
        Action::Gap(h, i) => cell <= h || i <= cell,
        Action::Once => true,
        Action::Twice => true,
    }
}

// The pick from a cell of an aisle, of which its line then lacks as much less; none where nothing is taken.
fn pick_at(
    lacking: &mut [OrderLine; 8],
    shelf: &Shelf,
    action: Action,
    aisle: usize,
    cell: usize,
) -> Option<Pick>
    requires aisle { (1 ≤ aisle) × (aisle ≤ 16) }
    requires cell { (1 ≤ cell) × (cell ≤ 24) }
    requires line { IfSome (get_or shelf.now.line (cell_number aisle cell) None) (λ k. k < 8) }
    ensures { PickedAt shelf.now action aisle cell lacking.old lacking.new result }
{
    let place = cell_number(aisle, cell);
    let Some(number) = shelf.line[place] else {
        return None;
    };
    if !passes(action, cell) {
        return None;
    }
    let line = &mut lacking[number];
    let quantity = line.quantity.min(shelf.quantity[place]);
    if quantity == 0 {
        return None;
    }
    line.quantity -= quantity;
    Some(Pick {
        aisle,
        cell,
        article: line.article,
        quantity,
    })
}

// The picks of a plan for a job with these lines, so many cells to an aisle, and this shelf.
pub fn picks(lines: [OrderLine; 8], cells: usize, shelf: &Shelf, plan: PlanValue) -> PickList
    requires { (job : Job) × Asked job lines cells shelf.now plan }
    ensures { (job : Job) → Asked job lines cells shelf.now plan → items result ≡ picks_of job (plan_of plan) }
{
    let mut picks = PickList::new();
    let mut lacking = lines;
    for (j, stage) in plan.as_slice().iter().enumerate() {
        for c in 0..cells {
            if let Some(pick) = pick_at(&mut lacking, shelf, stage.action, j + 1, c + 1) {
                picks.push(pick);
            }
        }
    }
    picks
}
