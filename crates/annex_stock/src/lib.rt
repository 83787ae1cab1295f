// Whether a plan serves the list: for each line the stock of its article in passed cells of open aisles is added up.
//
// The stock is lent: the records of the job as they lie there, so that no plan costs a copy of them.
#![tactic(auto)]

ghost use Rattle.std.specs.Prelude.{◌≡◌, ◌≤◌};
ghost use Rattle.rules.specs.Plans.{plan_passes};
ghost use Rattle.rules.specs.Serving.{supply};
ghost use Rattle.values.specs.Values.{plan_of};
ghost use Rattle.annex_stock.specs.Stocked.{Held, all_supplied, counted, gives};

use annex_plans::stages::action_of;
use picks::passes;
use rules::{OrderLine, StockRecord};
use values::PlanValue;

// Stock records, and which aisles are open, aisle j at j - 1.
#[derive(Clone, Copy)]
pub struct Stock<'a> {
    pub records: &'a [StockRecord],
    pub open: [bool; 16],
}

impl<'a> Stock<'a> {
    // What a record gives of an article: its quantity, if it has the article, its aisle is open and its cell is passed.
    fn given(&self, held: StockRecord, plan: PlanValue, article: usize) -> usize
        requires { (1 ≤ held.aisle) × (held.aisle ≤ plan.aisles) }
        ensures { result ≡ gives self.now.open (plan_passes (plan_of plan)) article held }
    {
        if held.article == article
            && self.open[held.aisle - 1]
            && passes(action_of(plan, held.aisle), held.cell)
        {
            return held.quantity;
        }
        0
    }

    // The stock of an article in passed cells of open aisles.
    pub fn supply(&self, plan: PlanValue, article: usize) -> usize
        requires { Held self.now plan }
        ensures { result ≡ supply (plan_passes (plan_of plan)) (counted self.now) article }
    {
        let mut sum = 0;
        for held in self.records {
            sum += self.given(*held, plan, article);
        }
        sum
    }

    // Whether a plan serves the lines.
    pub fn serves(&self, lines: &[OrderLine], plan: PlanValue) -> bool
        requires { Held self.now plan }
        ensures { result ≡ all_supplied self.now lines.now plan }
    {
        lines
            .iter()
            .all(|line| line.quantity <= self.supply(plan, line.article))
    }
}
