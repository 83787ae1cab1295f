// Reading a job: job bytes to the job by value, or to the first refusal that applies.
#![tactic(auto)]

mod amounts;
mod bounds;
pub mod stock;
mod twice;
mod verdict;

ghost use Rattle.std.specs.Prelude.{◌≡◌, Ok};
ghost use Rattle.rules.specs.JobFile.{read_job};
ghost use Rattle.rules.specs.Refusals.{check_bytes};
ghost use Rattle.rules.specs.Looked.{looked_in, handed_on};
ghost use Rattle.values.specs.Values.{Sound};
ghost use Rattle.reading.specs.Kept.{job_value};
ghost use Rattle.jobfile.specs.Answer.{checked_of, answer_to, no_job};

use reading::raw::read_raw;
use rules::{Layout, OrderLine, Policy, Posts, Refusal, StockRecord};
use values::JobValue;
use verdict::verdict_on;

// The answer to job bytes: the verdict, and the job with its first 384 records, its first 64 windows and its first 8 lines, refused
// or not. Where there is no job file, the job is blank. And how many records the stock test looked at (#105), 0 where it was not made.
#[derive(Clone, Copy)]
pub struct ReadJob {
    pub verdict: Result<(), Refusal>,
    pub job: JobValue,
    pub looked: usize,
}

// The job of bytes that are no job file.
fn no_job() -> JobValue
    ensures { result ≡ job_value no_job }
{
    let layout = Layout {
        aisles: 0,
        cells: 0,
        front: 0,
        pitch: 0,
        back: 0,
        width: 0,
        depot: 0,
        posts: Posts::NoPosts,
    };
    JobValue {
        layout,
        policy: Policy::Exact,
        records: 0,
        stock: [StockRecord::default(); 384],
        orders: 0,
        lines: [OrderLine::default(); 8],
        hours: None,
    }
}

// The bytes of a job file: the job by value if no refusal applies to it, or else the first refusal of 1 to 8 and 12; and how many records
// the stock test looked at, 0 where a refusal before 8 stops the job.
pub fn read_job(bytes: &[u8]) -> ReadJob
    ensures result_value { checked_of result ≡ check_bytes bytes.now }
    ensures sound { result.verdict ≡ Ok tt → Sound result.job }
    ensures value { result ≡ answer_to (read_job bytes.now) }
    ensures looked_value { result.looked ≡ handed_on (looked_in bytes.now) }
{
    let Some(raw) = read_raw(bytes) else {
        return ReadJob {
            verdict: Err(Refusal::NotAJobFile),
            job: no_job(),
            looked: 0,
        };
    };
    let decision = verdict_on(&raw);
    ReadJob {
        verdict: decision.verdict,
        job: raw.job,
        looked: decision.looked,
    }
}
