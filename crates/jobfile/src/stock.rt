// The stock test: refusal 8, and how many records it looks at (#105, "Enough is enough").
ghost use Rattle.std.specs.Prelude.{◌≡◌, ◌≤◌, IfSome};
ghost use Rattle.rules.specs.Refusals.{short_of_stock};
ghost use Rattle.rules.specs.Looked.{looked};
ghost use Rattle.values.specs.Values.{job_of};
ghost use Rattle.jobfile.specs.Ready.{StockReady, ListReady};

use hours::open_aisles;
use values::JobValue;

// The answer of the stock test: whether some line exceeds all the stock of its article, and how many records were looked at.
#[derive(Clone, Copy)]
pub struct StockTest {
    pub short: bool,
    pub looked: usize,
}

// The stock test. The adding up for a line stops as soon as the sum reaches the line's quantity, and the whole test as soon as one
// line is found short. Records of shut aisles hold nothing (#106), and are looked at as the others.
// Both loops count by hand: the inner one runs by the sum, and the first short line leaves both by a label, as document 01 names it.
pub fn stock_test(job: JobValue) -> StockTest
    requires stock_ready { StockReady job }
    requires list_ready { ListReady job }
    requires count_bound { IfSome job.hours (λ clock. clock.count ≤ 64) }
    ensures short_value { result.short ≡ short_of_stock (job_of job) }
    ensures looked_value { result.looked ≡ looked (job_of job) }
{
    let count = job.orders;
    let records = job.records;
    let hours = job.hours;
    let open = open_aisles(hours);
    let mut short = false;
    let mut looked: usize = 0;
    let mut i = 0;
    'lines: while i < count {
        let line = job.lines[i];
        let article = line.article;
        let quantity = line.quantity;
        i += 1;
        let mut sum: usize = 0;
        let mut k = 0;
        while sum < quantity {
            if records <= k {
                short = true;
                break 'lines;
            }
            let row = job.stock[k];
            let same = row.article == article;
            let is_open = open[row.aisle - 1];
            if same & is_open {
                sum += row.quantity;
            }
            k += 1;
            looked += 1;
        }
    }
    StockTest { short, looked }
}
