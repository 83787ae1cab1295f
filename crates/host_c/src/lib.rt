// The planning host's C entries: they export the calls of `host` (include/dizhondu.h).
#![tactic(auto)]

ghost use Rattle.std.specs.Prelude.{◌≡◌};
ghost use Rattle.rules.specs.Answers.{host_answer, host_number};
ghost use Rattle.rules.specs.PageAnswers.{host_page_answer, host_page_number};

// Plans a job: the sheet's byte count, or 65,536 plus the refusal's number.
#[unsafe(no_mangle)]
pub extern "C" fn plan_sheet(job: &[u8], sheet: &mut [u8]) -> u32
    ensures number { result ≡ host_number (host_answer job.now sheet.old).reply }
    ensures bytes { sheet.new ≡ (host_answer job.now sheet.old).sheet }
{
    host::plan_sheet(job, sheet)
}

// Plans a job and its clipboard page (#103): the page's byte count times 2^32, plus the number of `plan_sheet`.
#[unsafe(no_mangle)]
pub extern "C" fn plan_page(job: &[u8], sheet: &mut [u8], page: &mut [u8]) -> u64
    ensures number { result ≡ host_page_number (host_page_answer job.now sheet.old page.old) }
    ensures sheet_bytes { sheet.new ≡ (host_page_answer job.now sheet.old page.old).call.sheet }
    ensures page_bytes { page.new ≡ (host_page_answer job.now sheet.old page.old).page }
{
    host::plan_page(job, sheet, page)
}
