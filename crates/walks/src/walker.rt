// The steps of the walk: at each point the first letter behind which all that is left can still be reached.
//
// The edges at the point `at` (numbered as in `flood`) are: back `at`, front `at - 1` (the one that starts at the point before), right
// `at + 442`, and left, the one that starts 26 numbers earlier, `at - 26 + 442`, which is `at + 416`.
ghost use Rattle.std.specs.Prelude.{◌≡◌, true, ◌↔◌, ◌+◌, ◌*◌, ◌≤◌, ◌<◌, get_or, set, replicate};
ghost use Rattle.std.proofs.Math.Option.{some};
ghost use Rattle.rules.specs.FirstWalk.{steps_of};
ghost use Rattle.treads.specs.Treads.{left_of};
ghost use Rattle.flood.specs.Points.{depot_number};
ghost use Rattle.flood.specs.Flooded.{AllReached, Ranged};
ghost use Rattle.walks.specs.Letters.{slot_by, treads_at, Walkable, can_be, next_letter, letters_left};

use arrayvec::ArrayVec;
use flood::{HEIGHTS, POINTS, next_of};
use rules::{Direction, Layout};
use runs::STEPS;
use treads::EDGES;

// How far the number of the edge to the left lies from the point's.
const LEFTWARDS: usize = POINTS - HEIGHTS;

// The steps of a walk.
pub type Steps = ArrayVec<Direction, STEPS>;

// The number of the edge that leads from a point that way.
fn slot_of(at: usize, step: Direction) -> usize
    requires { (26 ≤ at) × (at < 442) }
    ensures { result ≡ slot_by step at }
{
    match step {
        Direction::Back => at,
        Direction::Front => at - 1,
        Direction::Left => at + LEFTWARDS,
        Direction::Right => at + POINTS,
    }
}

// A walk on its way: the treads that are left, and the number of the point that it has come to.
#[derive(Drop)]
pub struct Walker {
    pub layout: Layout,
    pub left: [u8; EDGES],
    pub at: usize,
}

impl Walker {
    // How many treads are left at the point: back, front, left and right of it.
    fn treads(&self) -> usize
        requires { (26 ≤ self.now.at) × (self.now.at < 442) }
        ensures { result ≡ treads_at self.now.left self.now.at }
    {
        usize::from(self.left[self.at])
            + usize::from(self.left[self.at - 1])
            + usize::from(self.left[self.at + LEFTWARDS])
            + usize::from(self.left[self.at + POINTS])
    }

    // Whether all that is left can be reached from a step's end after the last tread of its edge, which is put back.
    fn reaches_without(&mut self, slot: usize, next: usize) -> bool
        requires edge { get_or self.old.left slot 0 ≡ 1 }
        requires point { next < 442 }
        requires range { Ranged (set self.old.left slot 0) (26 * (self.old.layout.aisles + 1)) }
        ensures variant { (result ≡ true) ↔ AllReached (set self.old.left slot 0) next }
        ensures unchanged { self.new ≡ self.old }
    {
        self.left[slot] = 0;
        let answer = flood::reaches(&self.left, next, HEIGHTS * (self.layout.aisles + 1));
        self.left[slot] = 1;
        answer
    }

    // Whether a letter can be next: its edge is left, and behind it all that is left can still be reached. Two cases need no flood
    // fill; the theorems named are in proofs/Stepping.antt.
    fn admitted(&mut self, step: Direction) -> bool
        requires { Walkable self.old.layout self.old.left self.old.at }
        ensures value { result ≡ can_be self.old.layout self.old.left self.old.at step }
        ensures unchanged { self.new ≡ self.old }
    {
        let slot = slot_of(self.at, step);
        match self.left[slot] {
            0 => false,
            // The only tread left at the point: a walk that uses up all treads can only start with it, and there is one
            // (`letter_alone`). Else the flood fill decides (`letter_last`).
            1 => self.treads() == 1 || self.reaches_without(slot, next_of(self.at, step)),
            // An edge with two treads left can still be passed after one, so nothing is cut off (`letter_spare`).
            _ => true,
        }
    }

    // The next letter: the first in the alphabet that can be. R is not tried: while a tread is left at the point, some letter can be.
    fn next_letter(&mut self) -> Direction
        requires { Walkable self.old.layout self.old.left self.old.at × (0 < treads_at self.old.left self.old.at) }
        ensures at_value { next_letter self.old.layout self.old.left self.old.at ≡ some result }
        ensures unchanged { self.new ≡ self.old }
    {
        for step in [Direction::Back, Direction::Front, Direction::Left] {
            if self.admitted(step) {
                return step;
            }
        }
        Direction::Right
    }

    // The steps from here on; every tread is used up, and the walker stands at the depot.
    pub fn follow(&mut self) -> Steps
        requires { Walkable self.old.layout self.old.left self.old.at × (steps_of self.old.layout (left_of self.old.layout self.old.left) ≤ 860) }
        ensures steps { result.items ≡ letters_left self.old.layout self.old.left self.old.at }
        ensures layout_unchanged { self.new.layout ≡ self.old.layout }
        ensures left_after { self.new.left ≡ replicate 884 0 }
        ensures at_after { self.new.at ≡ depot_number self.old.layout }
    {
        let mut steps = Steps::new();
        while 0 < self.treads() {
            let step = self.next_letter();
            self.left[slot_of(self.at, step)] -= 1;
            self.at = next_of(self.at, step);
            steps.push(step);
        }
        steps
    }
}
