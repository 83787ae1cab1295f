// MIDPOINT's and LARGEST's own rule.
ghost use Prim.Native.Nat.{◌<◌, ◌≤◌, ℕ};
ghost use lib.Dec.{eqb};
ghost use mathlib.Core.Bool.{Bool, true, ◌||◌};
ghost use mathlib.Core.Logic.{◌↔◌};
ghost use mathlib.Core.Path.{◌≡◌};
ghost use Rattle.rules.specs.Jobs.{Job};
ghost use Rattle.rules.specs.Plans.{Fits};
ghost use Rattle.rules.specs.Policies.{MidpointRule};
ghost use Rattle.rules.specs.Store.{side_of};
ghost use Rattle.between.specs.Between.{between_of};
ghost use Rattle.values.specs.Values.{plan_of};
ghost use Rattle.annex_policy.specs.Middle.{BetweenAsked, MidAt, between_said};
ghost use Rattle.annex_plans.specs.OfStore.{PlanFor};

use crate::row::{Row, row_of, walks_as};
use annex_plans::stages::action_of;
use between::Between;
use rules::{Action, Layout, Side};
use values::PlanValue;

// Whether an action passes the test for aisles between: VOID, BOTTOM, TOP or GAP, with turns that it allows; a turn at a crossing is no turn.
// `aisles` has the same match over an `Aisle`, stated by definitions of its own, on which this crate does not stand.
fn keeps_between(cells: usize, b: Between, action: Action) -> bool
    requires { (cells ≤ 24) × Fits cells action }
    ensures { (gaps : Bool) (job : Job) (j : ℕ) → b ≡ between_of gaps job j → cells ≡ job.layout.cells → result ≡ between_said gaps job j action }
{
    match action {
        Action::Void => b.allows(0, cells + 1),
        Action::Bottom(i) => b.allows(i, cells + 1),
        Action::Top(i) => b.allows(0, i),
        Action::Gap(h, i) => b.allows(h, i),
        Action::Once | Action::Twice => false,
    }
}

// Whether an aisle is what is asked of it: walked back where it is the only one entered, ONCE where it is the first or the last, else passing the test.
fn mid_at(side: Side, cells: usize, b: Between, action: Action, single: bool, end: bool) -> bool
    requires { (cells ≤ 24) × Fits cells action }
    ensures { (gaps : Bool) (job : Job) (j : ℕ) → b ≡ between_of gaps job j → cells ≡ job.layout.cells → (result ≡ true) ↔ MidAt side single end action (between_said gaps job j action) }
{
    if single {
        return walks_as(side, action, true);
    }
    if end {
        return walks_as(side, action, false);
    }
    keeps_between(cells, b, action)
}

// Whether aisle j is the first or the last entered.
fn is_end(row: Row, j: usize) -> bool
    ensures { result ≡ (eqb j row.first || eqb j row.last) }
{
    j == row.first || j == row.last
}

// MIDPOINT's and LARGEST's own rule: a single entered aisle is walked back; otherwise the first and the last are ONCE, and those between pass the test.
pub fn midpoint(z: Layout, betweens: [Between; 3], plan: PlanValue) -> bool
    requires { PlanFor z plan × (z.aisles ≤ 3) }
    ensures { (gaps : Bool) (job : Job) → BetweenAsked gaps job z betweens → (result ≡ true) ↔ MidpointRule (side_of z) (λ j a. between_said gaps job j a ≡ true) (plan_of plan) }
{
    let side = z.side();
    let row = row_of(plan);
    let single = row.entered == 1;
    for j in 0..plan.aisles {
        let end = is_end(row, j + 1);
        if !mid_at(
            side,
            z.cells,
            betweens[j],
            action_of(plan, j + 1),
            single,
            end,
        ) {
            return false;
        }
    }
    true
}
