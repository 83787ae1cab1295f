// What the program prints: the sheet, or `R 1` and a line with the refusal's number.
ghost use Rattle.std.specs.Prelude.{◌≡◌};
ghost use Rattle.rules.specs.Answers.{output};

use arrayvec::ArrayVec;
use planner::WORK_AREA;

// What the program prints for a job.
pub fn text_of(job: &[u8]) -> ArrayVec<u8, 16384>
    ensures { result.items ≡ output job.now }
{
    let mut text = ArrayVec::from([0; 16384]);
    let mut work = [0; WORK_AREA];
    match planner::plan(job, text.as_mut_slice(), &mut work) {
        Ok(count) => {
            text.truncate(count);
            text
        }
        Err(cause) => {
            let count = lines::write_refusal(text.as_mut_slice(), u32::from(cause) as usize);
            text.truncate(count);
            text
        }
    }
}
