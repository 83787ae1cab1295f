// The planning host's calls: they take only byte buffers, give one number and bring their own work area.
#![tactic(auto)]

ghost use Rattle.std.specs.Prelude.{◌≡◌};
ghost use Rattle.rules.specs.Answers.{host_answer, host_number};
ghost use Rattle.rules.specs.PageAnswers.{host_page_answer, host_page_number};

use planner::WORK_AREA;

// Plans a job: the sheet's byte count, or 65,536 plus the refusal's number.
#[tactic(auto, unfolding(rules::specs::Answers::host_answer))]
pub fn plan_sheet(job: &[u8], sheet: &mut [u8]) -> u32
    ensures number { result ≡ host_number (host_answer job.now sheet.old).reply }
    ensures bytes { sheet.new ≡ (host_answer job.now sheet.old).sheet }
{
    let mut work = [0; WORK_AREA];
    match planner::plan(job, sheet, &mut work) {
        Ok(count) => count as u32,
        Err(cause) => 65536 + u32::from(cause),
    }
}

// Plans a job and its clipboard page (#103): the page's byte count times 2^32, plus the number of `plan_sheet`.
#[tactic(auto, unfolding(rules::specs::PageAnswers::host_page_answer))]
pub fn plan_page(job: &[u8], sheet: &mut [u8], page: &mut [u8]) -> u64
    ensures number { result ≡ host_page_number (host_page_answer job.now sheet.old page.old) }
    ensures sheet_bytes { sheet.new ≡ (host_page_answer job.now sheet.old page.old).call.sheet }
    ensures page_bytes { page.new ≡ (host_page_answer job.now sheet.old page.old).page }
{
    let mut work = [0; WORK_AREA];
    match planner::page::plan_page(job, sheet, page, &mut work) {
        Ok(counts) => ((counts.page as u64) << 32) + counts.sheet as u64,
        Err(cause) => 65536 + u64::from(u32::from(cause)),
    }
}
