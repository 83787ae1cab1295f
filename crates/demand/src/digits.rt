// Open demand as a number: the order lines as its digits.
ghost use Rattle.std.specs.Prelude.{◌%◌, ◌/◌, ◌<◌, ◌≤◌, suc, ℕ, get_or, ◌≡◌};
ghost use Rattle.demand.specs.Digits.{DigitsOf, demands};
ghost use Rattle.values.specs.Values.{Sound, job_of};

use values::JobValue;

// The most demands that a list can have: no list is heavier.
pub const DEMANDS: usize = 256;

// An order line as a digit: the product of the radices before it, and for each demand number the digit, what the line lacks there.
#[derive(Clone, Copy)]
pub struct Digit {
    pub stride: usize,
    pub lacks: [u8; DEMANDS],
}

// The order lines as digits, the first line the lowest, and the weight of the list.
#[derive(Clone, Copy)]
pub struct Digits {
    pub digit: [Digit; 8],
    pub weight: usize,
}

// The digits of a job.
pub fn digits_of(job: JobValue) -> Digits
    requires { Sound job }
    ensures { DigitsOf (job_of job) result }
{
    let none = Digit {
        stride: 0,
        lacks: [0; DEMANDS],
    };
    let mut digit = [none; 8];
    let mut weight = 1;
    for (l, line) in job.lines[..job.orders].iter().enumerate() {
        let radix = line.quantity + 1;
        digit[l] = digit_of(radix, weight);
        weight *= radix;
    }
    Digits { digit, weight }
}

// A digit, counted on: it is one more than in the number a stride before, and 0 again at the radix.
fn digit_of(radix: usize, stride: usize) -> Digit
    requires { (1 ≤ radix) × (radix ≤ demands) × (1 ≤ stride) }
    ensures { (result.stride ≡ stride) × ((q : ℕ) → q < demands → get_or result.lacks q 0 ≡ q / stride % radix) }
{
    let mut lacks = [0; DEMANDS];
    for q in stride..DEMANDS {
        lacks[q] = next(lacks[q - stride], radix);
    }
    Digit { stride, lacks }
}

// One more, and 0 again at the radix.
fn next(x: u8, radix: usize) -> u8
    requires { (x < radix) × (radix ≤ demands) }
    ensures { result ≡ suc x % radix }
{
    let up = usize::from(x) + 1;
    if up < radix { up as u8 } else { 0 }
}
