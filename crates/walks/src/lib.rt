// The walk of a plan: of all closed walks that tread each edge exactly as the plan says, the one whose letters come first.
#![tactic(auto)]

mod walker;

ghost use Rattle.std.specs.Prelude.{◌≡◌};
ghost use Rattle.rules.specs.FirstWalk.{first_walk};
ghost use Rattle.rules.specs.Sheet.{runs_of};
ghost use Rattle.values.specs.FixedLists.{items};
ghost use Rattle.values.specs.Values.{plan_of};
ghost use Rattle.walks.specs.Lawfully.{LawfulPlan};

use crate::walker::{Steps, Walker};
use flood::depot_number;
use rules::Layout;
use treads::EDGES;
use values::{PlanValue, RunList};

// The steps of the walk.
fn walk_steps(layout: Layout, plan: PlanValue) -> Steps
    requires { LawfulPlan layout plan }
    ensures { result.items ≡ first_walk layout (plan_of plan) }
{
    let mut left = [0; EDGES];
    treads::fill(layout, &plan.stages, &mut left);
    let mut walker = Walker {
        layout,
        left,
        at: depot_number(layout),
    };
    walker.follow()
}

// The runs of the walk.
pub fn walk_runs(layout: Layout, plan: PlanValue) -> RunList
    requires { LawfulPlan layout plan }
    ensures { items result ≡ runs_of (first_walk layout (plan_of plan)) }
{
    let steps = walk_steps(layout, plan);
    runs::runs_of(steps.as_slice())
}
