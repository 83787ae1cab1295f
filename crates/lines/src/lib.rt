// The lines of the sections: each is written, and its byte count told, by its definition.
#![tactic(auto)]

pub mod text;

ghost use Rattle.std.specs.Prelude.{◌≡◌, ◌++◌, ◌≤◌, List, ℕ, length};
ghost use Rattle.rules.specs.JobFile.{line_feed, header, field, policy_word};
ghost use Rattle.rules.specs.Answers.{letter_r};
ghost use Rattle.rules.specs.Sheet.{action_text, passage_text, pick_text, run_text};
ghost use Rattle.lines.specs.Written.{Written, Sized, total_line_text};

use crate::text::{number_size, write_field, write_word};
use rules::{Action, Passage, Pick, Policy, Run};

// A line of a section: it is written, and its byte count told.
pub trait Line {
    // its text
    ghost text: { Self → List ℕ };

    // a number of bytes that no line passes
    ghost most: { ℕ };

    // Writes the line.
    fn write(&self, sheet: &mut [u8]) -> usize
        requires { length (text self.now) ≤ length sheet.old }
        ensures { Written (text self.now) sheet.old sheet.new result };

    // The byte count of the line.
    fn size(&self) -> usize
        ensures { Sized (text self.now) most result };
}

// The line of the T section: the length and the policy.
#[derive(Clone, Copy)]
pub struct Total {
    pub length: usize,
    pub policy: Policy,
}

// The word of a policy.
fn policy_word(policy: Policy) -> &'static [u8]
    ensures word { result.now ≡ policy_word policy }
    ensures short { length result.now ≤ 9 }
{
    match policy {
        Policy::Exact => b"EXACT",
        Policy::Return => b"RETURN",
        Policy::Traversal => b"TRAVERSAL",
        Policy::Midpoint => b"MIDPOINT",
        Policy::Composite => b"COMPOSITE",
        Policy::Largest => b"LARGEST",
    }
}

impl Line for Total {
    ghost text = { total_line_text };

    ghost most = { 31 };

    fn write(&self, sheet: &mut [u8]) -> usize {
        let mut at = write_field(sheet, self.length, b' ');
        at += write_word(&mut sheet[at..], policy_word(self.policy));
        sheet[at] = b'\n';
        at + 1
    }

    #[tactic(auto, using(crate::proofs::Sizes::total_size))]
    fn size(&self) -> usize {
        number_size(self.length) + policy_word(self.policy).len() + 2
    }
}

// The line of the A section: a word, and the cells behind it.
impl Line for Action {
    ghost text = { action_text };

    ghost most = { 46 };

    fn write(&self, sheet: &mut [u8]) -> usize {
        match *self {
            Action::Void => write_word(sheet, b"VOID\n"),
            Action::Bottom(i) => {
                let at = write_word(sheet, b"BOTTOM ");
                at + write_field(&mut sheet[at..], i, b'\n')
            }
            Action::Top(i) => {
                let at = write_word(sheet, b"TOP ");
                at + write_field(&mut sheet[at..], i, b'\n')
            }
            Action::Gap(h, i) => {
                let mut at = write_word(sheet, b"GAP ");
                at += write_field(&mut sheet[at..], h, b' ');
                at + write_field(&mut sheet[at..], i, b'\n')
            }
            Action::Once => write_word(sheet, b"ONCE\n"),
            Action::Twice => write_word(sheet, b"TWICE\n"),
        }
    }

    #[tactic(auto, using(crate::proofs::Sizes::field_size, crate::proofs::Sizes::fields_size))]
    fn size(&self) -> usize {
        match *self {
            Action::Void => 5,
            Action::Bottom(i) => 8 + number_size(i),
            Action::Top(i) => 5 + number_size(i),
            Action::Gap(h, i) => 6 + number_size(h) + number_size(i),
            Action::Once => 5,
            Action::Twice => 6,
        }
    }
}

// The bytes of a line of the C section.
#[tactic(auto, unfolding(rules::specs::Sheet::passage_text))]
fn passage_word(passage: Passage) -> &'static [u8]
    ensures { result.now ≡ passage_text passage }
{
    match passage {
        Passage::P00 => b"00\n",
        Passage::P02 => b"02\n",
        Passage::P11 => b"11\n",
        Passage::P20 => b"20\n",
        Passage::P22 => b"22\n",
    }
}

impl Line for Passage {
    ghost text = { passage_text };

    ghost most = { 3 };

    fn write(&self, sheet: &mut [u8]) -> usize {
        write_word(sheet, passage_word(*self))
    }

    #[tactic(auto, unfolding(rules::specs::Sheet::passage_text))]
    fn size(&self) -> usize {
        3
    }
}

// The line of the P section: aisle, cell, article, quantity taken.
impl Line for Pick {
    ghost text = { pick_text };

    ghost most = { 84 };

    fn write(&self, sheet: &mut [u8]) -> usize {
        let mut at = write_field(sheet, self.aisle, b' ');
        at += write_field(&mut sheet[at..], self.cell, b' ');
        at += write_field(&mut sheet[at..], self.article, b' ');
        at + write_field(&mut sheet[at..], self.quantity, b'\n')
    }

    #[tactic(auto, using(crate::proofs::Sizes::pick_size))]
    fn size(&self) -> usize {
        4 + number_size(self.aisle)
            + number_size(self.cell)
            + number_size(self.article)
            + number_size(self.quantity)
    }
}

// The line of the W section: like a section's first line, a letter and a number.
impl Line for Run {
    ghost text = { run_text };

    ghost most = { 23 };

    #[tactic(auto, unfolding(rules::specs::Sheet::run_text, rules::specs::JobFile::header))]
    fn write(&self, sheet: &mut [u8]) -> usize {
        write_header(sheet, self.direction.letter(), self.steps)
    }

    #[tactic(auto, using(crate::proofs::Sizes::run_size))]
    fn size(&self) -> usize {
        3 + number_size(self.steps)
    }
}

// Writes a section's first line: its letter and its count.
pub fn write_header(sheet: &mut [u8], letter: u8, n: usize) -> usize
    requires { length (header letter n) ≤ length sheet.old }
    ensures { Written (header letter n) sheet.old sheet.new result }
{
    let word = [letter, b' '];
    let at = write_word(sheet, &word);
    at + write_field(&mut sheet[at..], n, b'\n')
}

// The byte count of a section's first line.
#[tactic(auto, using(crate::proofs::Sizes::header_size))]
pub fn header_size(letter: u8, n: usize) -> usize
    ensures { Sized (header letter n) 23 result }
{
    3 + number_size(n)
}

// Writes what a program prints for a refused job: `R 1` and a line with a number.
pub fn write_refusal(sheet: &mut [u8], number: usize) -> usize
    requires { length (header letter_r 1 ++ field line_feed number) ≤ length sheet.old }
    ensures { Written (header letter_r 1 ++ field line_feed number) sheet.old sheet.new result }
{
    let at = write_header(sheet, b'R', 1);
    at + write_field(&mut sheet[at..], number, b'\n')
}
