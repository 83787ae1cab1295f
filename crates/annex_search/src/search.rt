// Every plan of a small store is tried, one after another, and the first of the best that pass are kept.
ghost use Prim.Native.Nat.{◌+◌, ◌<◌, ◌≤◌};
ghost use lib.ListN.{length};
ghost use mathlib.Core.Bool.{true};
ghost use mathlib.Core.Logic.{◌↔◌};
ghost use mathlib.Core.Path.{◌≡◌};
ghost use Rattle.rules.specs.BestPlan.{plans_of};
ghost use Rattle.rules.specs.Jobs.{Job};
ghost use Rattle.rules.specs.Plans.{plan_length};
ghost use Rattle.rules.specs.Policies.{Allowed, entered_aisles};
ghost use Rattle.rules.specs.Serving.{PlanServes};
ghost use Rattle.values.specs.Values.{plan_of};
ghost use Rattle.annex_search.specs.Searched.{Asking, KeptAll, KeptTo, Searching, improves_on};

use annex_lawful::lawful::lawful_for;
use annex_lawful::lengths::plan_length;
use annex_plans::{plan_at, plan_count};
use annex_policy::own::own_rule;
use annex_policy::policy::named;
use annex_stock::Stock;
use between::Between;
use entered::{aisle_count, entered_set};
use rules::{Layout, OrderLine, Policy};
use values::PlanValue;

// What the tests ask of a job: its layout, policy, list and stock, which aisles may be entered, and the test for aisles between.
#[derive(Clone, Copy)]
pub(crate) struct Asked<'a> {
    pub layout: Layout,
    pub policy: Policy,
    pub lines: &'a [OrderLine],
    pub stock: Stock<'a>,
    pub may: [bool; 16],
    pub between: [Between; 3],
}

// A plan that is kept, its length, and the set of aisles that it enters.
#[derive(Clone, Copy)]
pub struct Kept {
    pub length: usize,
    pub entered: u16,
    pub plan: PlanValue,
}

// Whether a plan is better than what is kept: it is shorter, or it is as long and enters fewer aisles (#108), or nothing is kept.
fn improves(best: Option<Kept>, plan: PlanValue, size: usize) -> bool
    ensures { result ≡ improves_on best size (entered_aisles (plan_of plan)) }
{
    match best {
        None => true,
        Some(kept) => {
            if size == kept.length {
                aisle_count(entered_set(plan)) < aisle_count(kept.entered)
            } else {
                size < kept.length
            }
        }
    }
}

impl<'a> Asked<'a> {
    // Whether a plan passes: the policy allows it and it serves the list. The cheap tests come first: the kinds and passages that the policy
    // names, the stock that the plan passes, the policy's own rule; the dearest, lawfulness, comes last.
    fn passes(&self, plan: PlanValue, size: usize) -> bool
        requires { ((job : Job) × Asking job self.now plan) × (size ≡ plan_length self.now.layout (plan_of plan)) }
        ensures { (job : Job) → Asking job self.now plan
            → (result ≡ true) ↔ (Allowed job (plan_of plan) × PlanServes job (plan_of plan)) }
    {
        named(self.layout, self.may, self.policy, plan)
            && self.stock.serves(self.lines, plan)
            && own_rule(self.layout, self.policy, self.between, plan)
            && lawful_for(self.layout, self.lines.len(), plan, size)
    }

    // What is kept after plan n is tried. Whether it is better is cheaper to ask than whether it passes: what is no better than what is kept
    // is not tested at all.
    fn tried(&self, best: Option<Kept>, n: usize) -> Option<Kept>
        requires { ((job : Job) × Searching job self.now) × (n < length (plans_of self.now.layout.cells self.now.layout.aisles)) }
        ensures { (job : Job) → Searching job self.now → KeptTo job best n → KeptTo job result (n + 1) }
    {
        let plan = plan_at(self.layout.cells, self.layout.aisles, n);
        let length = plan_length(self.layout, plan);
        if improves(best, plan, length) && self.passes(plan, length) {
            let entered = entered_set(plan);
            return Some(Kept {
                length,
                entered,
                plan,
            });
        }
        best
    }

    // Of all plans of the store that pass, the first of the best, if any passes.
    pub(crate) fn search(&self) -> Option<Kept>
        requires { (job : Job) × Searching job self.now }
        ensures { (job : Job) → Searching job self.now → KeptAll job result }
    {
        let mut best = None;
        for n in 0..plan_count(self.layout.cells, self.layout.aisles) {
            best = self.tried(best, n);
        }
        best
    }
}
