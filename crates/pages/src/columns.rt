// The line of a pick: numbers right-aligned in their columns.
ghost use Rattle.std.specs.Prelude.{◌≤◌, length, replicate};
ghost use Rattle.rules.specs.JobFile.{space};
ghost use Rattle.rules.specs.Page.{aligned, column, page_line};
ghost use Rattle.lines.specs.Written.{Written};

use lines::text::{number_size, write_number, write_word};
use rules::Pick;

// Writes spaces.
fn write_spaces(page: &mut [u8], count: usize) -> usize
    requires { count ≤ length page.old }
    ensures { Written (replicate count space) page.old page.new result }
{
    page[..count].fill(b' ');
    count
}

// Writes a number right-aligned in so many bytes, with spaces in front.
fn write_aligned(page: &mut [u8], width: usize, n: usize) -> usize
    requires { length (aligned width n) ≤ length page.old }
    ensures { Written (aligned width n) page.old page.new result }
{
    let size = number_size(n);
    let at = write_spaces(page, width.saturating_sub(size));
    at + write_number(&mut page[at..], n)
}

// Writes a column: a number, right-aligned, and the bytes behind it.
fn write_column(page: &mut [u8], width: usize, n: usize, behind: &[u8]) -> usize
    requires { length (column width n behind.now) ≤ length page.old }
    ensures { Written (column width n behind.now) page.old page.new result }
{
    let at = write_aligned(page, width, n);
    at + write_word(&mut page[at..], behind)
}

// Writes the line of a pick: aisle, hyphen, cell, space, quantity, ten full stops, article, line feed.
pub fn write_line(page: &mut [u8], pick: &Pick) -> usize
    requires { length (page_line pick.now) ≤ length page.old }
    ensures { Written (page_line pick.now) page.old page.new result }
{
    let mut at = write_column(page, 2, pick.aisle, b"-");
    at += write_column(&mut page[at..], 2, pick.cell, b" ");
    at += write_column(&mut page[at..], 3, pick.quantity, b"..........");
    at + write_column(&mut page[at..], 5, pick.article, b"\n")
}
