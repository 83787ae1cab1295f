// What a policy names, and the aisles that are VOID.
ghost use Prim.Native.Nat.{◌≤◌};
ghost use mathlib.Core.Bool.{true};
ghost use mathlib.Core.Logic.{◌↔◌};
ghost use mathlib.Core.Path.{◌≡◌};
ghost use Rattle.rules.specs.Jobs.{Job};
ghost use Rattle.rules.specs.Policies.{action_named, passage_named};
ghost use Rattle.values.specs.Values.{plan_of};
ghost use Rattle.annex_policy.specs.Ruled.{Named, RulesAsked};

use crate::kinds::{side_kind, side_passage};
use annex_plans::stages::{action_of, passage_of};
use entered::enters;
use rules::{Action, Kind, Layout, Passage, Policy, Side};
use values::PlanValue;

// Whether a policy names an action; where it names BOTTOM without TOP, it names TOP with the depot at the back (#109).
fn names_action(side: Side, policy: Policy, action: Action) -> bool
    ensures { result ≡ action_named side policy action }
{
    let kind = action.kind();
    match policy {
        Policy::Exact => true,
        Policy::Return => kind == Kind::Void || kind == side_kind(side),
        Policy::Traversal => matches!(kind, Kind::Void | Kind::Once) || kind == side_kind(side),
        Policy::Midpoint | Policy::Largest => {
            matches!(
                kind,
                Kind::Void | Kind::Bottom | Kind::Top | Kind::Gap | Kind::Once
            )
        }
        Policy::Composite => matches!(kind, Kind::Void | Kind::Bottom | Kind::Top | Kind::Once),
    }
}

// Whether a policy names a passage; where it names 02 without 20, it names 20 with the depot at the back (#109).
fn names_passage(side: Side, policy: Policy, passage: Passage) -> bool
    ensures { result ≡ passage_named side policy passage }
{
    match policy {
        Policy::Exact => true,
        Policy::Return => passage == Passage::P00 || passage == side_passage(side),
        Policy::Traversal | Policy::Midpoint | Policy::Largest => {
            matches!(passage, Passage::P00 | Passage::P11) || passage == side_passage(side)
        }
        Policy::Composite => {
            matches!(
                passage,
                Passage::P00 | Passage::P02 | Passage::P11 | Passage::P20
            )
        }
    }
}

// Whether all actions and passages are named, and aisles that may not be entered are VOID.
pub fn named(z: Layout, may: [bool; 16], policy: Policy, plan: PlanValue) -> bool
    ensures { (job : Job) → RulesAsked job z may policy plan → (result ≡ true) ↔ Named job (plan_of plan) }
{
    let side = z.side();
    for j in 0..plan.aisles {
        let action = action_of(plan, j + 1);
        if !names_action(side, policy, action) {
            return false;
        }
        if !names_passage(side, policy, passage_of(plan, j + 1)) {
            return false;
        }
        if !may[j] && enters(action) {
            return false;
        }
    }
    true
}
