// Sets of entered aisles as 16-bit numbers: a bit for each aisle, counted by its ones.
#![tactic(auto)]

ghost use Prim.Native.Nat.{◌<◌, ◌≤◌};
ghost use lib.Count.{ones};
ghost use mathlib.Core.Path.{◌≡◌};
ghost use Rattle.rules.specs.Plans.{entered};
ghost use Rattle.values.specs.Values.{plan_of};
ghost use Rattle.entered.specs.Sets.{entered_set, with_aisle, with_aisle_if};

use rules::Action;
use values::PlanValue;

// Whether an action enters its aisle: every one but VOID does.
pub fn enters(action: Action) -> bool
    ensures { result ≡ entered action }
{
    !matches!(action, Action::Void)
}

// The set of entered aisles with the one of that number, if it is entered.
pub fn with_aisle_if(set: u16, aisle: usize, entered: bool) -> u16
    requires { aisle < 16 }
    ensures { result ≡ with_aisle_if set aisle entered }
{
    if entered { set | (1 << aisle) } else { set }
}

// The set of entered aisles with the one of that number, if the action enters it.
#[tactic(auto, unfolding(crate::specs::Sets::with_aisle))]
pub fn with_aisle(set: u16, aisle: usize, action: Action) -> u16
    requires { aisle < 16 }
    ensures { result ≡ with_aisle set aisle action }
{
    with_aisle_if(set, aisle, enters(action))
}

// How many aisles a set has: its ones. (`as`, since Rust has no `From<u32>` for usize.)
pub fn aisle_count(set: u16) -> usize
    ensures { result ≡ ones set }
{
    set.count_ones() as usize
}

// The set of the entered aisles of a plan, aisle j at bit j - 1.
pub fn entered_set(plan: PlanValue) -> u16
    ensures { result ≡ entered_set (plan_of plan) }
{
    let mut set = 0u16;
    for (k, stage) in plan.as_slice().iter().enumerate() {
        set = with_aisle(set, k, stage.action);
    }
    set
}
