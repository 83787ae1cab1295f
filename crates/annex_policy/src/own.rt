// The rules that policies have of their own.
ghost use Prim.Native.Nat.{◌≤◌};
ghost use mathlib.Core.Bool.{true};
ghost use mathlib.Core.Logic.{◌↔◌};
ghost use mathlib.Core.Path.{◌≡◌};
ghost use Rattle.rules.specs.Jobs.{Job};
ghost use Rattle.rules.specs.Policies.{OwnRule};
ghost use Rattle.values.specs.Values.{plan_of};
ghost use Rattle.annex_policy.specs.Middle.{BetweenAsked, is_largest};
ghost use Rattle.annex_plans.specs.OfStore.{PlanFor};

use crate::middle::midpoint;
use crate::row::traversal;
use between::Between;
use rules::{Layout, Policy};
use values::PlanValue;

// Whether a plan keeps to a policy's own rule: EXACT, RETURN and COMPOSITE have none.
pub fn own_rule(z: Layout, policy: Policy, betweens: [Between; 3], plan: PlanValue) -> bool
    requires { PlanFor z plan × (z.aisles ≤ 3) }
    ensures { (job : Job) → policy ≡ job.policy → BetweenAsked (is_largest policy) job z betweens → (result ≡ true) ↔ OwnRule job.policy job (plan_of plan) }
{
    match policy {
        Policy::Exact | Policy::Return | Policy::Composite => true,
        Policy::Traversal => traversal(z, plan),
        Policy::Midpoint | Policy::Largest => midpoint(z, betweens, plan),
    }
}
