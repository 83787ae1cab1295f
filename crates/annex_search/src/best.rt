// The best plan of a job with a small store: every plan is tried.
ghost use Prim.Native.Nat.{◌≤◌};
ghost use Rattle.values.specs.Shelves.{ShelfOf};
ghost use Rattle.values.specs.Values.{Sound, job_of};
ghost use Rattle.annex_search.specs.Searched.{KeptAll};

use crate::search::{Asked, Kept};
use annex_policy::asked::{betweens, enterable};
use annex_stock::Stock;
use values::{JobValue, Shelf};

// The first of the best plans that the policy allows and that serve the list: the shortest, and of these one that enters the fewest aisles (#108).
pub fn best_plan(job: JobValue, shelf: Shelf) -> Option<Kept>
    requires { Sound job × ShelfOf (job_of job) shelf × (job.layout.aisles ≤ 3) × (job.layout.cells ≤ 4) }
    ensures { KeptAll (job_of job) result }
{
    let open = shelf.open;
    let asked = Asked {
        layout: job.layout,
        policy: job.policy,
        lines: &job.lines[..job.orders],
        stock: Stock {
            records: &job.stock[..job.records],
            open,
        },
        may: enterable(job.layout, job.policy, shelf),
        between: betweens(job.layout, job.policy, shelf),
    };
    asked.search()
}
