// The maps of an aisle: for each demand what is left of it behind a part of an aisle.
ghost use Rattle.std.specs.Prelude.{IfSome, ◌*◌, ◌+◌, ◌-◌, ◌<◌, ◌≤◌, suc, get_or, length, ◌≡◌};
ghost use Rattle.demand.specs.Digits.{Within, demands, less_digit, less_line, no_digit};
ghost use Rattle.demand.specs.Maps.{MapsAsked, MapsReady, RowAsked, RowBelow, RowSet, RowsTo, entry, height_at, heights, map_size};
ghost use Rattle.rules.specs.Jobs.{Job};

use crate::digits::{DEMANDS, Digit, Digits};
use between::HEIGHTS;
use shelves::cell_number;
use values::Shelf;

// The numbers of a map: a row of all demands for each height.
pub const MAP: usize = HEIGHTS * DEMANDS;

// The maps of an aisle: what is left of each demand behind the front part of an action, by the height that it reaches, and behind its
// back part.
#[derive(Clone, Copy)]
pub struct Maps {
    pub fronts: [u16; MAP],
    pub backs: [u16; MAP],
}

impl Maps {
    // Maps to be filled.
    pub const EMPTY: Maps = Maps {
        fronts: [0; MAP],
        backs: [0; MAP],
    };
}

// The part of an action that comes from the front, or from the back.
#[derive(Clone, Copy)]
enum Part {
    Front,
    Back,
}

impl Part {
    // The height at which n cells are reached.
    fn height(self, cells: usize, n: usize) -> usize
        requires { (cells ≤ 24) × (n ≤ suc cells) }
        ensures { result ≡ height_at self cells n }
    {
        match self {
            Part::Front => n,
            Part::Back => cells + 1 - n,
        }
    }
}

// A row of a map in which every demand stays as it is.
pub fn plain_row(map: &mut [u16], to: usize, weight: usize)
    requires { (to * demands + weight ≤ length map.old) × (weight ≤ demands) }
    ensures { RowSet map.old map.new to weight (λ q. q) }
{
    for q in 0..weight {
        map[to * DEMANDS + q] = q as u16;
    }
}

// A row of a map like another one.
fn copy_row(map: &mut [u16], to: usize, from: usize, weight: usize)
    requires { RowAsked map.old to from weight }
    ensures { RowSet map.old map.new to weight (λ q. entry map.old from q) }
{
    let start = from * DEMANDS;
    map.copy_within(start..start + weight, to * DEMANDS);
}

// A row of a map behind another one: its demands after one more cell, which holds n for the line of a digit.
fn less_row(map: &mut [u16], to: usize, from: usize, x: Digit, n: usize, weight: usize)
    requires { RowAsked map.old to from weight × Within x weight × RowBelow map.old from weight }
    ensures { RowSet map.old map.new to weight (λ q. less_digit x n (entry map.old from q)) }
{
    for q in 0..weight {
        let old = usize::from(map[from * DEMANDS + q]);
        let lacks = usize::from(x.lacks[old]);
        map[to * DEMANDS + q] = (old - lacks.min(n) * x.stride) as u16;
    }
}

// A row of a map behind another one: its demands after one more cell, which holds n for its line, if it has one.
fn map_row(map: &mut [u16], to: usize, from: usize, d: Digits, line: Option<usize>, n: usize)
    requires { RowAsked map.old to from d.weight × RowBelow map.old from d.weight × IfSome line (λ l. (l < 8) × Within (get_or d.digit l no_digit) d.weight) }
    ensures { RowSet map.old map.new to d.weight (λ q. less_line d line n (entry map.old from q)) }
{
    let weight = d.weight;
    match line {
        None => copy_row(map, to, from, weight),
        Some(l) => less_row(map, to, from, d.digit[l], n, weight),
    }
}

// The map by a part of an action: the rows of the cells that it reaches, one after the other.
fn fill_map(map: &mut [u16], shelf: &Shelf, d: Digits, cells: usize, j: usize, part: Part)
    requires { (map_size ≤ length map.old) × ((job : Job) × MapsAsked job shelf.now d cells j) }
    ensures { ((job : Job) → MapsAsked job shelf.now d cells j → RowsTo job cells j part (suc cells) map.new) × (length map.new ≡ length map.old) }
{
    plain_row(map, part.height(cells, 0), d.weight);
    for n in 0..cells {
        let from = part.height(cells, n);
        let to = part.height(cells, n + 1);
        let at = cell_number(j, to);
        map_row(map, to, from, d, shelf.line[at], shelf.quantity[at]);
    }
}

// The maps of an aisle, into places that are lent: a call's stack has no room for more of them.
pub fn fill_maps(
    fronts: &mut [u16],
    backs: &mut [u16],
    shelf: &Shelf,
    d: Digits,
    cells: usize,
    j: usize,
)
    requires { (map_size ≤ length fronts.old) × (map_size ≤ length backs.old) × ((job : Job) × MapsAsked job shelf.now d cells j) }
    ensures { ((job : Job) → MapsAsked job shelf.now d cells j → MapsReady job j fronts.new backs.new)
        × (length fronts.new ≡ length fronts.old) × (length backs.new ≡ length backs.old) }
{
    fill_map(fronts, shelf, d, cells, j, Part::Front);
    fill_map(backs, shelf, d, cells, j, Part::Back);
}
