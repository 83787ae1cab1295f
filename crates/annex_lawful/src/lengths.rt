// The length of a plan. Its parts are counted here, and not by the crates under the table: the search stands beside the table, not on it.
ghost use Prim.Native.Nat.{◌≤◌};
ghost use mathlib.Core.Bool.{true};
ghost use mathlib.Core.Path.{◌≡◌};
ghost use Rattle.rules.specs.Lengths.{action_length, passage_length};
ghost use Rattle.rules.specs.Plans.{Fits, plan_length};
ghost use Rattle.rules.specs.Store.{layout_in_bounds};
ghost use Rattle.values.specs.Values.{plan_of};
ghost use Rattle.annex_plans.specs.OfStore.{PlanFor};

use annex_plans::stages::{action_of, passage_of};
use between::positions::{aisle_length, position_of};
use rules::{Action, Layout, Passage};
use treads::{back_treads, front_treads};
use values::PlanValue;

// What an action adds to it.
fn action_length(z: Layout, action: Action) -> usize
    requires { (layout_in_bounds z ≡ true) × Fits z.cells action }
    ensures { (result ≡ action_length z action) × (result ≤ 4160) }
{
    match action {
        Action::Void => 0,
        Action::Bottom(i) => 2 * position_of(z, i),
        Action::Top(i) => 2 * (aisle_length(z) - position_of(z, i)),
        Action::Gap(h, i) => 2 * position_of(z, h) + 2 * (aisle_length(z) - position_of(z, i)),
        Action::Once => aisle_length(z),
        Action::Twice => 2 * aisle_length(z),
    }
}

// What a passage adds to it.
fn passage_length(z: Layout, passage: Passage) -> usize
    requires { layout_in_bounds z ≡ true }
    ensures { (result ≡ passage_length z passage) × (result ≤ 1600) }
{
    (usize::from(back_treads(passage)) + usize::from(front_treads(passage))) * z.width
}

// The length of a plan.
pub fn plan_length(z: Layout, plan: PlanValue) -> usize
    requires { PlanFor z plan }
    ensures { result ≡ plan_length z (plan_of plan) }
{
    let mut sum = 0;
    for j in 1..z.aisles + 1 {
        sum += action_length(z, action_of(plan, j)) + passage_length(z, passage_of(plan, j));
    }
    sum
}
