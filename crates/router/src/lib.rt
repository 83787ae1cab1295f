// The router: for an admitted job, of the shortest allowed plans that serve its list the first of those that enter the fewest aisles.
//
// Read out of the table (crate `table`) aisle by aisle, from the first to the last; for an empty list it treads nothing.
#![tactic(auto)]

mod choices;
mod trace;

ghost use Rattle.std.specs.Prelude.{◌≡◌, ◌≤◌, length, replicate};
ghost use Rattle.rows.specs.Rows.{work_area};
ghost use Rattle.table.specs.TableHolds.{OrderOf};
ghost use Rattle.values.specs.Shelves.{ShelfOf};
ghost use Rattle.rules.specs.BestPlan.{empty_plan};
ghost use Rattle.values.specs.Values.{job_of, plan_of, RoutedOf, Sound};

use rows::{NUMBERS, STATES};
use rules::{Action, Layout, Passage};
use table::filling::{Order, fill_table, method_of};
use values::{JobValue, PlanValue, Routed, Shelf, Stage};

// The numbers of a table, and so the least of a work area: a row for each of sixteen aisles.
pub const WORK_AREA: usize = 16 * NUMBERS;

// What the table needs of a job.
fn order_of(job: JobValue, shelf: Shelf) -> Order
    requires { Sound job × ShelfOf (job_of job) shelf }
    ensures { OrderOf (job_of job) result }
{
    Order {
        layout: job.layout,
        method: method_of(job.policy, job.layout),
        shelf,
        digits: demand::digits::digits_of(job),
    }
}

// The plan that treads nothing.
fn empty_plan(layout: Layout) -> PlanValue
    requires { layout.aisles ≤ 16 }
    ensures { (result.aisles ≡ layout.aisles) × (plan_of result ≡ empty_plan layout) }
{
    let nothing = Stage {
        action: Action::Void,
        passage: Passage::P00,
    };
    PlanValue {
        aisles: layout.aisles,
        stages: [nothing; 16],
    }
}

// The best plan of a job and its length. The work area holds the table's lengths, and what goes with each length stands in an array of
// the router's own. For an empty list no table is needed.
fn best_of(job: JobValue, shelf: Shelf, work: &mut [u16]) -> Routed
    requires { Sound job × ShelfOf (job_of job) shelf × (work_area ≤ length work.old) }
    ensures { RoutedOf (job_of job) result × (length work.new ≡ length work.old) }
{
    if job.orders == 0 {
        let plan = empty_plan(job.layout);
        return Routed { length: 0, plan };
    }
    let order = order_of(job, shelf);
    let mut spared = [0u16; WORK_AREA];
    fill_table(work, &mut spared, &order);
    let plan = trace::read_plan(work, &spared, &order);
    // aisle 1, the whole list open, nothing trodden yet
    let length = usize::from(work[(order.digits.weight - 1) * STATES]);
    Routed { length, plan }
}

// The best plan of a job and its length. The work area is all zero at the end.
pub fn route(job: JobValue, shelf: Shelf, work: &mut [u16]) -> Routed
    requires { Sound job × ShelfOf (job_of job) shelf × (work_area ≤ length work.old) }
    ensures { RoutedOf (job_of job) result × (work.new ≡ replicate (length work.old) 0) }
{
    let routed = best_of(job, shelf, work);
    work.fill(0);
    routed
}
