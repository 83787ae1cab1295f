// A section: its first line and its lines, written into lent space, and its byte count.
ghost use Rattle.std.specs.Prelude.{◌≤◌, ◌+◌, ◌*◌, length};
ghost use Rattle.rules.specs.Lists.{concat_of};
ghost use Rattle.rules.specs.JobFile.{section_text};
ghost use Rattle.lines.specs.Written.{Written, Sized};

use lines::{Line, header_size, write_header};

// Writes lines one behind the other.
fn write_lines<T: Line>(sheet: &mut [u8], lines: &[T]) -> usize
    requires { length (concat_of T.text lines.now) ≤ length sheet.old }
    ensures { Written (concat_of T.text lines.now) sheet.old sheet.new result }
{
    let mut at = 0;
    for line in lines {
        at += line.write(&mut sheet[at..]);
    }
    at
}

// Writes a section.
pub fn write_section<T: Line>(sheet: &mut [u8], letter: u8, lines: &[T]) -> usize
    requires { length (section_text letter T.text lines.now) ≤ length sheet.old }
    ensures { Written (section_text letter T.text lines.now) sheet.old sheet.new result }
{
    let at = write_header(sheet, letter, lines.len());
    at + write_lines(&mut sheet[at..], lines)
}

// The byte count of a section.
pub fn section_size<T: Line>(letter: u8, lines: &[T]) -> usize
    requires { T.most * length lines.now ≤ 65536 }
    ensures { Sized (section_text letter T.text lines.now) (23 + T.most * length lines.now) result }
{
    let mut size = header_size(letter, lines.len());
    for line in lines {
        size += line.size();
    }
    size
}
