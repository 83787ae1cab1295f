// Which cells of an aisle supply nothing new: the rows of a map that repeat the row before.
ghost use Rattle.std.specs.Prelude.{◌+◌, ◌<◌, ◌≤◌, length};
ghost use Rattle.demand.specs.Digits.{demands};
ghost use Rattle.demand.specs.Maps.{heights, map_size};
ghost use Rattle.aisles.specs.Repeating.{Agree, RepeatsTo};

use between::HEIGHTS;
use demand::digits::DEMANDS;

// For the front and the back map of an aisle: whether the row of height h + 1 is that of height h.
#[derive(Clone, Copy)]
pub struct Repeats {
    pub front: [bool; HEIGHTS],
    pub back: [bool; HEIGHTS],
}

// Whether two rows of a map agree for all demands.
fn same_rows(map: &[u16], a: usize, b: usize, weight: usize) -> bool
    requires { (a < heights) × (b < heights) × (weight ≤ demands) × (map_size ≤ length map.now) }
    ensures { Agree map.now a b weight result }
{
    let from = a * DEMANDS;
    let to = b * DEMANDS;
    map[from..from + weight] == map[to..to + weight]
}

// For each height below the back crossing, whether the next row of a map repeats its row.
pub(crate) fn repeats_of(map: &[u16], top: usize, weight: usize) -> [bool; HEIGHTS]
    requires { (top < heights) × (weight ≤ demands) × (map_size ≤ length map.now) }
    ensures { RepeatsTo map.now weight result top }
{
    let mut out = [false; HEIGHTS];
    for h in 0..top {
        out[h] = same_rows(map, h, h + 1, weight);
    }
    out
}
