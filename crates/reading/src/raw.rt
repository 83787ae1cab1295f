// All of 'not a job file': the bytes of a job file as a job, whose numbers are not tested yet.
ghost use Rattle.std.specs.Prelude.{◌≡◌};
ghost use Rattle.rules.specs.JobFile.{read_job};
ghost use Rattle.reading.specs.Kept.{raw_of};

use crate::cursor::Cursor;
use marks::no_marks;
use rules::{OrderLine, StockRecord};
use values::JobValue;

// A job as it stands in a job file, with its counts, the first 384 records, the first 64 windows and the first 8 lines of it; and
// whether a cell stands in two records. (A flag and no refusal: two other refusals come before that one, and their tests ask the job.)
#[derive(Clone, Copy)]
pub struct RawJob {
    pub job: JobValue,
    pub twice: bool,
}

// The bytes as a job, if they are a job file.
pub fn read_raw(s: &[u8]) -> Option<RawJob>
    ensures { result ≡ raw_of (read_job s.now) }
{
    if 16384 < s.len() {
        return None;
    }
    let start = Cursor { rest: s };
    let ((layout, policy), next) = start.layout_section()?;
    let mut stock = [StockRecord::default(); 384];
    let ((records, marks), next) = next.section(b'S', &mut stock, no_marks())?;
    let (hours, next) = next.hours()?;
    let mut lines = [OrderLine::default(); 8];
    let ((orders, ()), last) = next.section(b'D', &mut lines, ())?;
    if !last.rest.is_empty() {
        return None;
    }
    let job = JobValue {
        layout,
        policy,
        records,
        stock,
        orders,
        lines,
        hours,
    };
    let twice = marks.twice;
    Some(RawJob { job, twice })
}
