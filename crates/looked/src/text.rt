// What the program prints: a line with the number of records, or with `-`.
ghost use Rattle.std.specs.Prelude.{◌≡◌};
ghost use Rattle.rules.specs.Looked.{stock_tested, looked_in, looked_text};
ghost use Rattle.looked.specs.Verdicts.{refusal_of};

use arrayvec::ArrayVec;
use rules::Refusal;

// Whether the stock test was made: no refusal before 8 has stopped the job.
fn is_tested(verdict: Result<(), Refusal>) -> bool
    ensures { result ≡ stock_tested (refusal_of verdict) }
{
    matches!(verdict, Ok(()) | Err(Refusal::ShortOfStock))
}

// What the program prints for a job.
pub fn text_of(job: &[u8]) -> ArrayVec<u8, 5>
    ensures { result.items ≡ looked_text (looked_in job.now) }
{
    let read = jobfile::read_job(job);
    let mut text = ArrayVec::from([0; 5]);
    if !is_tested(read.verdict) {
        let count = lines::text::write_word(text.as_mut_slice(), b"-\n");
        text.truncate(count);
        return text;
    }
    let count = lines::text::write_field(text.as_mut_slice(), read.looked, b'\n');
    text.truncate(count);
    text
}
