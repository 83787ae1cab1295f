// The job cursor: what is left of the job's bytes. Its methods read what stands there, and hand back the value and the next cursor.
ghost use Rattle.std.specs.Prelude.{◌≡◌, ◌≤◌, ℕ, ◌<◌, length, slice_index, EachIndex, drop, IfSome};
ghost use Rattle.rules.specs.JobFile.{leading_digits, bad_start, read_byte, read_field, read_header, read_word};
ghost use Rattle.reading.specs.Places.{seen, passed, number_in};

// What is left of the job's bytes.
#[derive(Clone, Copy)]
pub struct Cursor<'a> {
    pub rest: &'a [u8],
}

// The digits that stand here, and the bytes behind them.
fn digits(s: &[u8]) -> (&[u8], &[u8])
    ensures digits { result.0.now ≡ leading_digits s.now }
    ensures rest { result.1.now ≡ drop (length (leading_digits s.now)) s.now }
{
    let count = s.iter().take_while(|b| b.is_ascii_digit()).count();
    s.split_at(count)
}

// Whether a number cannot start so: there are no digits, or a zero stands in front of others.
fn bad_start(digits: &[u8]) -> bool
    ensures { result ≡ bad_start digits.now }
{
    matches!(digits, [] | [b'0', _, ..])
}

// The number that digits say: 1 to 5 of them, with no zero in front of others, and the value at most 65,535.
fn number(digits: &[u8]) -> Option<usize>
    requires { EachIndex digits.now (λ k. 48 ≤ slice_index digits.now k) }
    ensures { result ≡ number_in digits.now }
{
    if bad_start(digits) || 5 < digits.len() {
        return None;
    }
    let mut value: usize = 0;
    for digit in digits {
        value = value * 10 + usize::from(digit - b'0');
        if 65535 < value {
            return None;
        }
    }
    Some(value)
}

impl<'a> Cursor<'a> {
    // The byte b.
    pub fn byte(self, b: u8) -> Option<Cursor<'a>>
        ensures { passed b result ≡ read_byte b self.entry.rest.now }
    {
        match self.rest {
            [first, rest @ ..] if *first == b => Some(Cursor { rest }),
            _ => None,
        }
    }

    // A number that starts here and ends at its separator.
    pub fn field(self, separator: u8) -> Option<(usize, Cursor<'a>)>
        ensures value { seen result ≡ read_field separator self.entry.rest.now }
        ensures small { IfSome result (λ r. r.0 ≤ 65535) }
    {
        let (digits, rest) = digits(self.rest);
        let value = number(digits)?;
        let next = Cursor { rest }.byte(separator)?;
        Some((value, next))
    }

    // A section's first line: its letter, a space, its count and a line feed.
    #[tactic(auto, unfolding(rules::specs::JobFile::read_header))]
    pub fn header(self, letter: u8) -> Option<(usize, Cursor<'a>)>
        ensures { seen result ≡ read_header letter self.entry.rest.now }
    {
        let next = self.byte(letter)?;
        let next = next.byte(b' ')?;
        next.field(b'\n')
    }

    // The word, byte for byte.
    pub fn word(self, word: &[u8]) -> Option<Cursor<'a>>
        ensures { passed word.now result ≡ read_word word.now self.entry.rest.now }
    {
        let rest = self.rest.strip_prefix(word)?;
        Some(Cursor { rest })
    }
}
