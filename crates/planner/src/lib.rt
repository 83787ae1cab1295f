// The library call: job bytes, lent sheet space and a lent work area; with lent page space too in `page`.
#![tactic(auto)]

pub mod page;

ghost use Rattle.std.specs.Prelude.{IfOk, IfErr};
ghost use Rattle.rules.specs.Answers.{answer};
ghost use Rattle.planner.specs.Answered.{Answered};
ghost use Rattle.planner.specs.Tried.{Routes, Stops};

use finishing::RoutedJob;
use rules::Refusal;

// The least number of 16-bit numbers in the work area: those of the router's table.
pub use router::WORK_AREA;

// The plan of a job: refused with 10 where the work area is too small, then with the first of 1 to 8 and 12 that applies. What each
// cell holds for the list is noted once, for the route and for the picks.
fn route_job(bytes: &[u8], work: &mut [u16]) -> Result<RoutedJob, Refusal>
    ensures ok { IfOk result (λ routed. Routes bytes.now routed work.old work.new) }
    ensures err { IfErr result (λ cause. Stops bytes.now cause work.old work.new) }
{
    if work.len() < WORK_AREA {
        return Err(Refusal::WorkArea);
    }
    let read = jobfile::read_job(bytes);
    read.verdict?;
    let job = read.job;
    let shelf = shelves::shelve(job);
    let routed = router::route(job, shelf, work);
    Ok(RoutedJob { job, shelf, routed })
}

// The library call: refused with 10 where the work area is too small, then with the first of 1 to 9 and 12 that applies, or served.
pub fn plan(job: &[u8], sheet: &mut [u8], work: &mut [u16]) -> Result<usize, Refusal>
    ensures { Answered (answer job.now sheet.old work.old) result sheet.new work.new }
{
    let routed = route_job(job, work)?;
    routed.finish(sheet)
}
