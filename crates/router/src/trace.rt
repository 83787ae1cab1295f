// The plan that the table leads to, aisle by aisle.
ghost use Rattle.std.specs.Prelude.{◌<◌, ◌≤◌, suc, length, ◌≡◌};
ghost use Rattle.router.specs.Tracing.{TableOf, TraceAsked, Traced, with_stage};
ghost use Rattle.rules.specs.BestPlan.{best_plan};
ghost use Rattle.rules.specs.Jobs.{Job};
ghost use Rattle.rows.specs.Rows.{work_area};
ghost use Rattle.table.specs.TableHolds.{OrderOf, TableFrom};
ghost use Rattle.values.specs.Values.{plan_of};

use crate::choices::{At, Crossed, Sought, take_action, take_passage};
use demand::maps::{Maps, fill_maps};
use rows::{NUMBERS, Rows, STATES, entered_of};
use rules::{Action, Passage};
use table::filling::{Order, aisle_of, rows_behind};
use table::passages::fill_after;
use values::{PlanValue, Stage};

// A trace: the stages found, where it stands behind them, the set of the aisles that they enter, and the entered aisles of the whole plan. At the start
// it stands in state 0, nothing trodden, and at demand weight - 1, the whole list.
#[derive(Clone, Copy)]
pub struct Trace {
    pub stages: [Stage; 16],
    pub at: At,
    pub entered: u16,
    pub fewest: usize,
}

// A trace with the stage of the aisle behind the n that are seen.
fn with_stage(trace: Trace, n: usize, crossed: Crossed) -> Trace
    requires { n < 16 }
    ensures { result ≡ with_stage trace n crossed }
{
    let mut stages = trace.stages;
    stages[n] = crossed.stage;
    Trace {
        stages,
        at: crossed.at,
        entered: crossed.entered,
        fewest: trace.fewest,
    }
}

// The trace over one more aisle, the one behind the n that are seen: out of the next rows, and the table's length here.
fn trace_aisle(next: &Rows, order: &Order, n: usize, trace: Trace, here: usize) -> Trace
    requires { (job : Job) × OrderOf job order.now × TraceAsked job n trace next.now.lengths next.now.ones here }
    ensures { (job : Job) → OrderOf job order.now → TraceAsked job n trace next.now.lengths next.now.ones here → Traced job (suc n) result }
{
    let mut maps = Maps::EMPTY;
    let mut after = Rows::EMPTY;
    let j = n + 1;
    fill_maps(
        &mut maps.fronts,
        &mut maps.backs,
        &order.shelf,
        order.digits,
        order.layout.cells,
        j,
    );
    let aisle = aisle_of(order, j);
    fill_after(
        &mut after.lengths,
        &mut after.ones,
        &next.lengths,
        &next.ones,
        aisle,
    );
    let sought = Sought {
        at: trace.at,
        length: here,
        fewest: trace.fewest,
        entered: trace.entered,
        aisle: n,
        left: order.layout.aisles - j,
    };
    let taken = take_action(&after, &maps, aisle, sought);
    with_stage(trace, n, take_passage(next, aisle, taken))
}

// The same out of the table: the row of the aisle has the length here.
fn trace_on(work: &[u16], spared: &[u16], order: &Order, n: usize, trace: Trace) -> Trace
    requires { ((job : Job) × OrderOf job order.now × TableFrom job 1 work.now spared.now × Traced job n trace) × (n < order.now.layout.aisles)
        × (work_area ≤ length work.now) × (work_area ≤ length spared.now) }
    ensures { (job : Job) → OrderOf job order.now → TableFrom job 1 work.now spared.now → Traced job n trace → Traced job (suc n) result }
{
    let here = usize::from(work[n * NUMBERS + trace.at.demand * STATES + trace.at.state]);
    let next = rows_behind(work, spared, order.layout.aisles, n + 1);
    trace_aisle(&next, order, n, trace, here)
}

// The best plan, read out of the table.
pub fn read_plan(work: &[u16], spared: &[u16], order: &Order) -> PlanValue
    requires { ((job : Job) × TableOf job order.now work.now spared.now) × (work_area ≤ length work.now) × (work_area ≤ length spared.now) }
    ensures { (job : Job) → TableOf job order.now work.now spared.now → (result.aisles ≡ job.layout.aisles) × (plan_of result ≡ best_plan job) }
{
    let aisles = order.layout.aisles;
    let whole = order.digits.weight - 1;
    let nothing = Stage {
        action: Action::Void,
        passage: Passage::P00,
    };
    let mut trace = Trace {
        stages: [nothing; 16],
        at: At {
            state: 0,
            demand: whole,
        },
        entered: 0,
        fewest: entered_of(aisles, spared[whole * STATES]),
    };
    for n in 0..aisles {
        trace = trace_on(work, spared, order, n, trace);
    }
    let stages = trace.stages;
    PlanValue { aisles, stages }
}
