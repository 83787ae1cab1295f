// The page call (#103): as the library call, with lent page space beside the sheet's.
ghost use Rattle.rules.specs.PageAnswers.{page_answer};
ghost use Rattle.planner.specs.Paged.{PageAnswered};

use crate::route_job;
use rules::{PageReply, Refusal};

// The page call: refused with 10 where the work area is too small, then with the first of 1 to 9, 11 and 12 that applies, or served.
pub fn plan_page(
    job: &[u8],
    sheet: &mut [u8],
    page: &mut [u8],
    work: &mut [u16],
) -> Result<PageReply, Refusal>
    ensures { PageAnswered (page_answer job.now sheet.old page.old work.old) result sheet.new page.new work.new }
{
    let routed = route_job(job, work)?;
    routed.finish_page(sheet, page)
}
