// The bounds of the store: the refusals 2, 3, 12 and 5.
ghost use Rattle.std.specs.Prelude.{◌≡◌, ◌&&◌, leb};
ghost use Rattle.rules.specs.Store.{layout_in_bounds, posts_in_bounds};
ghost use Rattle.rules.specs.Hours.{window_in_bounds, hours_in_bounds};
ghost use Rattle.rules.specs.Refusals.{record_in_bounds, stock_in_bounds, line_in_bounds, list_in_bounds};
ghost use Rattle.values.specs.Values.{hours_of, job_of};
ghost use Rattle.jobfile.specs.Ready.{few_windows, store_only};

use marks::is_within;
use rules::{Layout, OrderLine, Posts, StockRecord, Window};
use values::{Clock, JobValue};

// The numbers of the posts, where they have a line.
#[tactic(auto, unfolding(rules::specs::Store::posts_in_bounds))]
fn posts_in_bounds(posts: Posts) -> bool
    ensures { result ≡ posts_in_bounds posts }
{
    match posts {
        Posts::NoPosts => true,
        Posts::Every(k, u) => is_within(1, 24, k) && is_within(0, 10, u),
        Posts::Sided(k, u, _) => is_within(1, 24, k) && is_within(0, 10, u),
    }
}

// The numbers of the layout.
#[tactic(auto, unfolding(rules::specs::Store::layout_in_bounds))]
pub fn layout_in_bounds(z: Layout) -> bool
    ensures { result ≡ layout_in_bounds z }
{
    is_within(1, 16, z.aisles)
        && is_within(1, 24, z.cells)
        && is_within(1, 60, z.front)
        && is_within(1, 30, z.pitch)
        && is_within(1, 60, z.back)
        && is_within(1, 400, z.width)
        && is_within(1, z.aisles, z.depot)
        && posts_in_bounds(z.posts)
}

// The fields of a stock record in a store.
#[tactic(auto, unfolding(rules::specs::Refusals::record_in_bounds))]
pub fn record_in_bounds(z: Layout, row: StockRecord) -> bool
    ensures { result ≡ record_in_bounds (store_only z) row }
{
    is_within(1, z.aisles, row.aisle)
        && is_within(1, z.cells, row.cell)
        && is_within(1, 65535, row.article)
        && is_within(1, 255, row.quantity)
}

// The number and the fields of the stock records.
pub fn stock_in_bounds(job: &JobValue) -> bool
    ensures { result ≡ leb job.now.records 384 && stock_in_bounds (job_of job.now) }
{
    if 384 < job.records {
        return false;
    }
    let z = job.layout;
    let records = &job.stock[..job.records];
    records.iter().all(|record| record_in_bounds(z, *record))
}

// The fields of a window in a store of so many aisles.
#[tactic(auto, unfolding(rules::specs::Hours::window_in_bounds))]
pub fn window_in_bounds(aisles: usize, w: Window) -> bool
    ensures { result ≡ window_in_bounds aisles w }
{
    is_within(1, aisles, usize::from(w.aisle)) && w.from < w.to && w.to <= 1440
}

// The minute, and the number and the fields of the windows, where the job has a clock.
pub fn hours_in_bounds(aisles: usize, hours: Option<Clock>) -> bool
    ensures { result ≡ few_windows hours && hours_in_bounds aisles (hours_of hours) }
{
    let Some(clock) = hours else {
        return true;
    };
    if 64 < clock.count || 1439 < clock.minute {
        return false;
    }
    let windows = &clock.windows[..clock.count];
    windows.iter().all(|w| window_in_bounds(aisles, *w))
}

// The fields of an order line.
#[tactic(auto, unfolding(rules::specs::Refusals::line_in_bounds))]
pub fn line_in_bounds(line: OrderLine) -> bool
    ensures { result ≡ line_in_bounds line }
{
    is_within(1, 65535, line.article) && is_within(1, 255, line.quantity)
}

// The number and the fields of the order lines.
pub fn list_in_bounds(job: &JobValue) -> bool
    ensures { result ≡ leb job.now.orders 8 && list_in_bounds (job_of job.now) }
{
    if 8 < job.orders {
        return false;
    }
    let lines = &job.lines[..job.orders];
    lines.iter().all(|line| line_in_bounds(*line))
}
