// All plans of a small store, one after another: the plan of a number, in the order of plans.
#![tactic(auto)]

pub mod stages;

ghost use Prim.Native.Nat.{◌<◌, ◌≤◌};
ghost use lib.ListN.{get_or, length};
ghost use mathlib.Core.Path.{◌≡◌};
ghost use Rattle.rules.specs.BestPlan.{plans_of};
ghost use Rattle.values.specs.Values.{plan_of};
ghost use Rattle.annex_plans.specs.Numbered.{no_plan};

use ranks::{action_at, action_count, passage_at};
use rules::{Action, Passage};
use values::{PlanValue, Stage};

// How many plans a store of at most 3 aisles and 4 cells has.
#[tactic(auto, using(crate::proofs::Numbers::few_actions, crate::proofs::Numbers::two_few, crate::proofs::Numbers::three_few))]
pub fn plan_count(cells: usize, aisles: usize) -> usize
    requires { (cells ≤ 4) × (1 ≤ aisles) × (aisles ≤ 3) }
    ensures { (result ≡ length (plans_of cells aisles)) × (result ≤ 122825) }
{
    let one = action_count(cells);
    let two = one * (5 * one);
    match aisles {
        1 => one,
        2 => two,
        _ => one * (5 * two),
    }
}

// The plan of a number, from the first aisle on: the plans of the aisles that are left are in blocks, one for each action, and a block is in five
// parts, one for each passage.
pub fn plan_at(cells: usize, aisles: usize, number: usize) -> PlanValue
    requires { (cells ≤ 4) × (1 ≤ aisles) × (aisles ≤ 3) × (number < length (plans_of cells aisles)) }
    ensures { (result.aisles ≡ aisles) × (plan_of result ≡ get_or (plans_of cells aisles) number no_plan) }
{
    let count = action_count(cells);
    let none = Stage {
        action: Action::Void,
        passage: Passage::P00,
    };
    let mut stages = [none; 16];
    let mut size = plan_count(cells, aisles);
    let mut rest = number;
    let last = aisles - 1;
    for j in 0..last {
        let block = size / count;
        size = block / 5;
        let behind = rest % block;
        let action = action_at(cells, rest / block);
        let passage = passage_at(behind / size);
        stages[j] = Stage { action, passage };
        rest = behind % size;
    }
    stages[last] = Stage {
        action: action_at(cells, rest),
        passage: Passage::P00,
    };
    PlanValue { aisles, stages }
}
