// The shelf of a job: what each cell of an open aisle holds for the order lines, and which aisles are open.
#![tactic(auto)]

ghost use Prim.Native.Nat.{◌<◌, ◌≤◌};
ghost use Rattle.between.specs.Between.{listed_flags};
ghost use Rattle.rules.specs.Jobs.{Job, holds_listed};
ghost use Rattle.rules.specs.Refusals.{Admitted};
ghost use Rattle.values.specs.Shelves.{ShelfOf, cell_number, line_from};
ghost use Rattle.values.specs.Values.{Sound, job_of};
ghost use lib.ListN.{length};
ghost use mathlib.Core.Path.{◌≡◌};

use between::HEIGHTS;
use hours::open_aisles;
use rules::OrderLine;
use values::{JobValue, Shelf};

// Where a cell stands on the shelf: 24 cells for each aisle.
pub fn cell_number(aisle: usize, cell: usize) -> usize
    requires { (1 ≤ aisle) × (aisle ≤ 16) × (1 ≤ cell) × (cell ≤ 24) }
    ensures { (result ≡ cell_number aisle cell) × (result < 384) }
{
    (aisle - 1) * 24 + (cell - 1)
}

// The number of the line of an article, if it is on one, as the shelf notes it.
fn line_of(lines: &[OrderLine], article: usize) -> Option<usize>
    requires { length lines.now ≤ 8 }
    ensures { result ≡ line_from 0 lines.now article }
{
    for (l, line) in lines.iter().enumerate() {
        if line.article == article {
            return Some(l);
        }
    }
    None
}

// The shelf of a job: the records of its open aisles.
pub fn shelve(job: JobValue) -> Shelf
    requires { Sound job }
    ensures { ShelfOf (job_of job) result }
{
    let open = open_aisles(job.hours);
    let lines = &job.lines[..job.orders];
    let mut line = [None; 384];
    let mut quantity = [0; 384];
    for record in &job.stock[..job.records] {
        let at = cell_number(record.aisle, record.cell);
        let counts = open[record.aisle - 1];
        if counts {
            line[at] = line_of(lines, record.article);
            quantity[at] = record.quantity;
        }
    }
    Shelf {
        line,
        quantity,
        open,
    }
}

// Whether an aisle holds an article of the list: whether one of its cells has a line.
pub fn holds_listed(shelf: &Shelf, cells: usize, j: usize) -> bool
    requires { (cells ≤ 24) × (1 ≤ j) × (j ≤ 16) }
    ensures { (job : Job) → Admitted job → ShelfOf job shelf.now → cells ≡ job.layout.cells → j ≤ job.layout.aisles → result ≡ holds_listed job j }
{
    for c in 1..cells + 1 {
        if shelf.line[cell_number(j, c)].is_some() {
            return true;
        }
    }
    false
}

// Which cells of an aisle hold an article of the list, by height: those that have a line.
pub fn listed_cells(shelf: &Shelf, cells: usize, j: usize) -> [bool; HEIGHTS]
    requires { (cells ≤ 24) × (1 ≤ j) × (j ≤ 16) }
    ensures { (job : Job) → Admitted job → ShelfOf job shelf.now → cells ≡ job.layout.cells → result ≡ listed_flags job j }
{
    let mut listed = [false; HEIGHTS];
    for i in 1..cells + 1 {
        listed[i] = shelf.line[cell_number(j, i)].is_some();
    }
    listed
}
