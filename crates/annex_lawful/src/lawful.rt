// Whether a plan is lawful, as an accountant would see by hand: treads counted at each crossing, trodden edges followed from the depot.
ghost use Prim.Native.Nat.{◌≤◌};
ghost use lib.ListN.{length};
ghost use mathlib.Core.Bool.{true};
ghost use mathlib.Core.Logic.{◌↔◌};
ghost use mathlib.Core.Path.{◌≡◌};
ghost use mathlib.Core.List.{List};
ghost use Rattle.rules.specs.declared.OrderLine.{OrderLine};
ghost use Rattle.rules.specs.Lawful.{Lawful, LawfulFor, back_degree, front_degree};
ghost use Rattle.rules.specs.Plans.{multiplicity, plan_length};
ghost use Rattle.rules.specs.Store.{depot_point};
ghost use Rattle.closedwalks.specs.Ways.{Joined};
ghost use Rattle.values.specs.Values.{plan_of};
ghost use Rattle.annex_plans.specs.OfStore.{PlanFor};
ghost use Rattle.annex_lawful.specs.Crossings.{EvenTo, depot_degree};

use annex_plans::stages::{action_of, passage_of};
use flood::{HEIGHTS, depot_number};
use rules::{Layout, Side};
use treads::{EDGES, aisle_treads, back_treads, fill, front_treads};
use values::PlanValue;

// The treads at the front crossing of aisle j.
fn front_degree(z: Layout, plan: PlanValue, j: usize) -> usize
    requires { PlanFor z plan × (1 ≤ j) × (j ≤ z.aisles) }
    ensures { result ≡ front_degree (multiplicity (plan_of plan)) j }
{
    usize::from(aisle_treads(action_of(plan, j), 0))
        + usize::from(front_treads(passage_of(plan, j - 1)))
        + usize::from(front_treads(passage_of(plan, j)))
}

// The treads at its back crossing.
fn back_degree(z: Layout, plan: PlanValue, j: usize) -> usize
    requires { PlanFor z plan × (1 ≤ j) × (j ≤ z.aisles) }
    ensures { result ≡ back_degree z (multiplicity (plan_of plan)) j }
{
    usize::from(aisle_treads(action_of(plan, j), z.cells))
        + usize::from(back_treads(passage_of(plan, j - 1)))
        + usize::from(back_treads(passage_of(plan, j)))
}

// Whether each crossing has an even number of treads.
fn all_even(z: Layout, plan: PlanValue) -> bool
    requires { PlanFor z plan }
    ensures { (result ≡ true) ↔ EvenTo z (plan_of plan) z.aisles }
{
    for j in 1..z.aisles + 1 {
        if front_degree(z, plan, j) % 2 != 0 || back_degree(z, plan, j) % 2 != 0 {
            return false;
        }
    }
    true
}

// The treads at the depot's crossing: the front one of its aisle, or the back one where the layout says BACK.
fn depot_degree(z: Layout, plan: PlanValue) -> usize
    requires { PlanFor z plan }
    ensures { result ≡ depot_degree z (multiplicity (plan_of plan)) }
{
    let front = front_degree(z, plan, z.depot);
    let back = back_degree(z, plan, z.depot);
    match z.side() {
        Side::FrontSide => front,
        Side::BackSide => back,
    }
}

// Whether all trodden edges can be reached from the depot along trodden edges.
fn hangs_together(z: Layout, plan: PlanValue) -> bool
    requires { PlanFor z plan }
    ensures { (result ≡ true) ↔ Joined z (multiplicity (plan_of plan)) (depot_point z) }
{
    let mut treads = [0u8; EDGES];
    fill(z, &plan.stages, &mut treads);
    flood::reaches(&treads, depot_number(z), HEIGHTS * (z.aisles + 1))
}

// Whether a plan is lawful: each crossing even, the depot's touched, and all that is trodden hangs together.
fn lawful(z: Layout, plan: PlanValue) -> bool
    requires { PlanFor z plan }
    ensures { (result ≡ true) ↔ Lawful z (plan_of plan) }
{
    if !all_even(z, plan) || depot_degree(z, plan) == 0 {
        return false;
    }
    hangs_together(z, plan)
}

// Whether a plan of this length is lawful for a list of so many lines: for an empty list the plan that treads nothing, the one of length
// 0, is lawful too.
pub fn lawful_for(z: Layout, orders: usize, plan: PlanValue, size: usize) -> bool
    requires { PlanFor z plan × (size ≡ plan_length z (plan_of plan)) }
    ensures { (lines : List OrderLine) → length lines ≡ orders → (result ≡ true) ↔ LawfulFor z lines (plan_of plan) }
{
    if orders == 0 && size == 0 {
        return true;
    }
    lawful(z, plan)
}
