// The row of entered aisles of a plan, and TRAVERSAL's own rule.
ghost use Prim.Native.Nat.{◌%◌, ◌*◌, ◌+◌, ◌<◌, ◌≤◌, ℕ};
ghost use lib.Dec.{eqb, ltb};
ghost use mathlib.Core.Bool.{◌&&◌, cond, true};
ghost use mathlib.Core.Logic.{◌↔◌};
ghost use mathlib.Core.Path.{◌≡◌};
ghost use Rattle.rules.specs.Plans.{Plan, action_at};
ghost use Rattle.rules.specs.Policies.{TraversalRule};
ghost use Rattle.rules.specs.Store.{side_of};
ghost use Rattle.values.specs.Values.{plan_of};
ghost use Rattle.annex_policy.specs.Rows.{RowTo, WalksAs};
ghost use Rattle.annex_plans.specs.OfStore.{PlanFor};

use annex_plans::stages::action_of;
use entered::enters;
use rules::{Action, Layout, Side};
use values::PlanValue;

// How many aisles are entered, the first and the last of them; aisles count from 1, so 0 is none. The ends are compared with aisles'
// numbers and nothing else, so that 0 is equal to none of them; an `Option` would be unwrapped at each comparison.
#[derive(Clone, Copy)]
pub struct Row {
    pub entered: usize,
    pub first: usize,
    pub last: usize,
}

// The row with aisle j, which comes behind those seen.
fn with_aisle(row: Row, j: usize, action: Action) -> Row
    requires { row.entered < 16 }
    ensures { (plan : Plan) (i : ℕ) → j ≡ i + 1 → RowTo plan i row → action ≡ action_at plan j → RowTo plan j result }
{
    if !enters(action) {
        return row;
    }
    if row.entered == 0 {
        return Row {
            entered: 1,
            first: j,
            last: j,
        };
    }
    Row {
        entered: row.entered + 1,
        first: row.first,
        last: j,
    }
}

// The row of a plan.
pub fn row_of(plan: PlanValue) -> Row
    ensures { RowTo (plan_of plan) plan.aisles result }
{
    let mut row = Row {
        entered: 0,
        first: 0,
        last: 0,
    };
    for j in 0..plan.aisles {
        row = with_aisle(row, j + 1, action_of(plan, j + 1));
    }
    row
}

// The aisle that TRAVERSAL walks back: the rightmost entered, or the leftmost where 2·d exceeds m + 1 (#107).
fn walked_back(z: Layout, row: Row) -> usize
    requires { (z.aisles ≤ 16) × (z.depot ≤ z.aisles) }
    ensures { result ≡ cond (ltb (z.aisles + 1) (2 * z.depot)) row.first row.last }
{
    if z.aisles + 1 < 2 * z.depot {
        return row.first;
    }
    row.last
}

// Whether an aisle is VOID, or walked back, which is BOTTOM, with the depot at the back TOP, or else walked through, which is ONCE.
pub fn walks_as(side: Side, action: Action, back: bool) -> bool
    ensures { (result ≡ true) ↔ WalksAs side action back }
{
    match action {
        Action::Void => true,
        Action::Bottom(_) => back && matches!(side, Side::FrontSide),
        Action::Top(_) => back && matches!(side, Side::BackSide),
        Action::Once => !back,
        Action::Gap(_, _) | Action::Twice => false,
    }
}

// Whether aisle j is the one walked back, which `back` is where an odd number of aisles is entered.
fn is_back(row: Row, back: usize, j: usize) -> bool
    ensures { result ≡ (eqb (row.entered % 2) 1 && eqb j back) }
{
    row.entered % 2 == 1 && j == back
}

// TRAVERSAL's own rule: with an even number of entered aisles all are ONCE; with an odd number one is walked back and the others are ONCE.
pub fn traversal(z: Layout, plan: PlanValue) -> bool
    requires { PlanFor z plan }
    ensures { (result ≡ true) ↔ TraversalRule (side_of z) z (plan_of plan) }
{
    let side = z.side();
    let row = row_of(plan);
    let back = walked_back(z, row);
    for j in 0..plan.aisles {
        if !walks_as(side, action_of(plan, j + 1), is_back(row, back, j + 1)) {
            return false;
        }
    }
    true
}
