// The verdict on a job that was read: the refusals in the order of the table.
ghost use Rattle.jobfile.specs.Answer.{Holds, Tells, Decides};

use crate::amounts::too_heavy;
use crate::bounds::{hours_in_bounds, layout_in_bounds, list_in_bounds, stock_in_bounds};
use crate::stock::stock_test;
use crate::twice::article_twice;
use reading::raw::RawJob;
use rules::Refusal;

// The verdict on a job that was read, and how many records the stock test looked at.
#[derive(Clone, Copy)]
pub struct Decision {
    pub verdict: Result<(), Refusal>,
    pub looked: usize,
}

// The first refusal before that of the stock test that applies to a job.
fn before_stock(raw: &RawJob) -> Result<(), Refusal>
    requires { Holds raw.now }
    ensures { Tells raw.now result }
{
    let job = &raw.job;
    if !layout_in_bounds(job.layout) {
        return Err(Refusal::LayoutBounds);
    }
    if !stock_in_bounds(job) {
        return Err(Refusal::StockBounds);
    }
    if raw.twice {
        return Err(Refusal::CellTwice);
    }
    let timely = hours_in_bounds(job.layout.aisles, job.hours);
    let listed = list_in_bounds(job);
    if !timely {
        return Err(Refusal::HoursBounds);
    }
    if !listed {
        return Err(Refusal::ListBounds);
    }
    let lines = &job.lines[..job.orders];
    if article_twice(lines) {
        return Err(Refusal::ArticleTwice);
    }
    if too_heavy(lines) {
        return Err(Refusal::TooHeavy);
    }
    Ok(())
}

// The first refusal that applies to a job. The last test is that of the stock, which is not made where another refusal applies.
pub fn verdict_on(raw: &RawJob) -> Decision
    requires { Holds raw.now }
    ensures { Decides raw.now result }
{
    if let Err(cause) = before_stock(raw) {
        return Decision {
            verdict: Err(cause),
            looked: 0,
        };
    }
    let test = stock_test(raw.job);
    let verdict = if test.short {
        Err(Refusal::ShortOfStock)
    } else {
        Ok(())
    };
    Decision {
        verdict,
        looked: test.looked,
    }
}
