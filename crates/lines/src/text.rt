// Words, numbers and fields: what every section of the sheet is written with.
ghost use Rattle.std.specs.Prelude.{◌≤◌, length};
ghost use Rattle.rules.specs.JobFile.{numeral, field};
ghost use Rattle.lines.specs.Written.{Written, Sized};

// Writes the decimal digits of a number: those before the last by recursion, then the last. (`Display` writes to a Formatter and not
// into bytes that are lent.)
pub fn write_number(sheet: &mut [u8], n: usize) -> usize
    requires { length (numeral n) ≤ length sheet.old }
    ensures { Written (numeral n) sheet.old sheet.new result }
{
    if n < 10 {
        sheet[0] = b'0' + n as u8;
        return 1;
    }
    let at = write_number(sheet, n / 10);
    sheet[at] = b'0' + (n % 10) as u8;
    at + 1
}

// How many digits a number has: as often as it can be divided by ten, which no range tells beforehand.
#[tactic(auto, using(crate::proofs::Sizes::small_size, crate::proofs::Sizes::large_size, crate::proofs::Sizes::digits_twenty))]
pub fn number_size(n: usize) -> usize
    ensures { Sized (numeral n) 20 result }
{
    let mut size = 1;
    let mut rest = n;
    while rest >= 10 {
        rest /= 10;
        size += 1;
    }
    size
}

// Writes a word byte for byte.
pub fn write_word(sheet: &mut [u8], word: &[u8]) -> usize
    requires { length word.now ≤ length sheet.old }
    ensures { Written word.now sheet.old sheet.new result }
{
    sheet[..word.len()].copy_from_slice(word);
    word.len()
}

// Writes a field: a number, and the separator behind it.
pub fn write_field(sheet: &mut [u8], n: usize, separator: u8) -> usize
    requires { length (field separator n) ≤ length sheet.old }
    ensures { Written (field separator n) sheet.old sheet.new result }
{
    let at = write_number(sheet, n);
    sheet[at] = separator;
    at + 1
}
