// What the program prints: the page, or `R 1` and a line with the refusal's number.
ghost use Rattle.std.specs.Prelude.{◌≡◌};
ghost use Rattle.rules.specs.PageAnswers.{page_output};

use arrayvec::ArrayVec;
use planner::WORK_AREA;

// What the program prints for a job.
pub fn text_of(job: &[u8]) -> ArrayVec<u8, 6375>
    ensures { result.items ≡ page_output job.now }
{
    let mut sheet = [0; 16384];
    let mut text = ArrayVec::from([0; 6375]);
    let mut work = [0; WORK_AREA];
    match planner::page::plan_page(job, &mut sheet, text.as_mut_slice(), &mut work) {
        Ok(counts) => {
            text.truncate(counts.page);
            text
        }
        Err(cause) => {
            let count = lines::write_refusal(text.as_mut_slice(), u32::from(cause) as usize);
            text.truncate(count);
            text
        }
    }
}
