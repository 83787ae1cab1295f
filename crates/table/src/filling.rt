// The table of an order: its rows in the work area, and the ones beside them, from the last aisle to the first.
ghost use Rattle.std.specs.Prelude.{◌-◌, ◌≤◌, length, replicate, ◌≡◌};
ghost use Rattle.rules.specs.Jobs.{Job};
ghost use Rattle.rules.specs.Policies.{walk_back_end};
ghost use Rattle.rules.specs.Machine.{enterable};
ghost use Rattle.rows.specs.Rows.{numbers, work_area};
ghost use Rattle.table.specs.TableHolds.{BehindAsked, BehindFilled, LayerAsked, LayerFilled, NextHolds, OrderOf, TableFrom, aisle_of, end_row, method_of, place_of, row_in, tried_at};

use crate::passages::fill_after;
use aisles::layers::{Aisle, fill_row};
use between::between_of;
use demand::digits::Digits;
use demand::maps::{Maps, fill_maps};
use machine::{Method, Place};
use rows::{NONE, NUMBERS, Rows};
use rules::{End, Layout, Policy};
use shelves::{holds_listed, listed_cells};
use values::Shelf;

// What the table needs of a job: the layout, the policy, what each cell holds for the order lines and which aisles are open, and
// the order lines as digits. It is lent from here on: a copy for each call would take the stack.
#[derive(Clone, Copy)]
pub struct Order {
    pub layout: Layout,
    pub method: Method,
    pub shelf: Shelf,
    pub digits: Digits,
}

// Whether aisle j may be entered: it is open, and the policy enters any open aisle, or it holds a listed article.
fn may_enter(o: &Order, j: usize) -> bool
    requires { ((job : Job) × OrderOf job o.now) × (1 ≤ j) × (j ≤ o.now.layout.aisles) }
    ensures { (job : Job) → OrderOf job o.now → result ≡ enterable job j }
{
    let open = o.shelf.open[j - 1];
    if !open {
        return false;
    }
    if o.method.enters_any() {
        return true;
    }
    holds_listed(&o.shelf, o.layout.cells, j)
}

// What the rows need of aisle j.
pub fn aisle_of(o: &Order, j: usize) -> Aisle
    requires { ((job : Job) × OrderOf job o.now) × (1 ≤ j) × (j ≤ o.now.layout.aisles) }
    ensures { (job : Job) → OrderOf job o.now → result ≡ aisle_of job j }
{
    let layout = o.layout;
    let may = may_enter(o, j);
    let listed = listed_cells(&o.shelf, layout.cells, j);
    let between = between_of(layout, o.method.asks_gap(), listed);
    Aisle {
        layout,
        method: o.method,
        may,
        weight: o.digits.weight,
        place: place_of(layout.depot, j),
        tried: tried_of(layout.aisles, j),
        between,
    }
}

// How many passages are tried behind aisle j: 00 alone behind the last one.
fn tried_of(aisles: usize, j: usize) -> usize
    requires { j ≤ aisles }
    ensures { result ≡ tried_at (aisles - j) }
{
    if j == aisles { 1 } else { 5 }
}

// Where an aisle lies: left of the depot, at it or right of it.
#[tactic(auto, unfolding(crate::specs::TableHolds::place_of))]
fn place_of(depot: usize, j: usize) -> Place
    ensures { result ≡ place_of depot j }
{
    if j < depot {
        Place::Left
    } else if j == depot {
        Place::At
    } else {
        Place::Right
    }
}

// The end at which TRAVERSAL walks an aisle back: the left end where the depot lies right of the middle (2·d > m + 1), otherwise the
// right end. The middle is half of m + 1, rounded down, said so that no sum can overflow.
fn walk_back_end(layout: Layout) -> End
    ensures { result ≡ walk_back_end layout }
{
    let aisles = layout.aisles;
    let middle = aisles - aisles / 2;
    if middle < layout.depot {
        End::Leftmost
    } else {
        End::Rightmost
    }
}

// A policy in a store.
pub fn method_of(policy: Policy, layout: Layout) -> Method
    ensures { result ≡ method_of policy layout }
{
    Method {
        policy,
        end: walk_back_end(layout),
    }
}

// The row behind the last aisle: only the closed state with nothing lacking is at the end, at length 0.
pub fn end_row() -> [u16; NUMBERS]
    ensures { result ≡ end_row }
{
    let mut row = [NONE; NUMBERS];
    row[1] = 0;
    row
}

// The rows behind the last aisle: the row of the end, and beside it that no aisle is left to spare.
fn end_rows() -> Rows
    ensures { (result.lengths ≡ end_row) × (result.ones ≡ replicate numbers 0) }
{
    Rows {
        lengths: end_row(),
        ones: [0; NUMBERS],
    }
}

// The rows of aisle j, as they stand in the work area and in the list of ones.
fn rows_of(work: &[u16], spared: &[u16], j: usize) -> Rows
    requires { (1 ≤ j) × (j ≤ 16) × (work_area ≤ length work.now) × (work_area ≤ length spared.now) }
    ensures { (result.lengths ≡ row_in work.now j) × (result.ones ≡ row_in spared.now j) }
{
    let at = (j - 1) * NUMBERS;
    let mut rows = Rows::EMPTY;
    rows.lengths.copy_from_slice(&work[at..at + NUMBERS]);
    rows.ones.copy_from_slice(&spared[at..at + NUMBERS]);
    rows
}

// The rows behind aisle j: those of the next aisle, or behind the last one the rows of the end.
pub fn rows_behind(work: &[u16], spared: &[u16], aisles: usize, j: usize) -> Rows
    requires { (j ≤ aisles) × (aisles ≤ 16) × (work_area ≤ length work.now) × (work_area ≤ length spared.now) }
    ensures { NextHolds aisles j work.now spared.now result.lengths result.ones }
{
    if j < aisles {
        rows_of(work, spared, j + 1)
    } else {
        end_rows()
    }
}

// The rows behind the actions of aisle j, out of those of the next aisle where they stand, or behind the last one out of the rows of
// the end.
fn fill_behind(after: &mut Rows, work: &[u16], spared: &[u16], x: Aisle, j: usize)
    requires { BehindAsked x work.now spared.now }
    ensures { BehindFilled x j after.new.lengths after.new.ones work.now spared.now }
{
    let lengths = &mut after.lengths;
    let ones = &mut after.ones;
    if j < x.layout.aisles {
        let at = j * NUMBERS;
        let end = at + NUMBERS;
        fill_after(lengths, ones, &work[at..end], &spared[at..end], x);
    } else {
        let last = end_rows();
        fill_after(lengths, ones, &last.lengths, &last.ones, x);
    }
}

// The rows of aisle j, of lengths and of ones, in their places.
fn fill_layer(work: &mut [u16], spared: &mut [u16], o: &Order, j: usize)
    requires { LayerAsked o.now j work.old spared.old }
    ensures { LayerFilled o.now j work.old work.new spared.old spared.new }
{
    let mut maps = Maps::EMPTY;
    let mut after = Rows::EMPTY;
    fill_maps(
        &mut maps.fronts,
        &mut maps.backs,
        &o.shelf,
        o.digits,
        o.layout.cells,
        j,
    );
    let x = aisle_of(o, j);
    fill_behind(&mut after, work, spared, x, j);
    let at = (j - 1) * NUMBERS;
    let end = at + NUMBERS;
    fill_row(
        &mut work[at..end],
        &mut spared[at..end],
        &after.lengths,
        &after.ones,
        &maps.fronts,
        &maps.backs,
        x,
    );
}

// The whole table: the lengths in the work area, and the ones beside them.
pub fn fill_table(work: &mut [u16], spared: &mut [u16], o: &Order)
    requires { ((job : Job) × OrderOf job o.now) × (work_area ≤ length work.old) × (work_area ≤ length spared.old) }
    ensures { ((job : Job) → OrderOf job o.now → TableFrom job 1 work.new spared.new)
        × (length work.new ≡ length work.old) × (length spared.new ≡ length spared.old) }
{
    for j in (1..o.layout.aisles + 1).rev() {
        fill_layer(work, spared, o, j);
    }
}
