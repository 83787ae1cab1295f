// Rows of the table, two for an aisle: a row of lengths, and beside it a row of ones. Both have the numbers of demand q and state s
// at q * 8 + s, so that a demand's eight states are side by side. The length is that of the rest of a plan from there on; 65,535 is
// 'none', no tour. The ones are a number with a one for each aisle that this rest spares (leaves VOID), packed from bit 0 up: 0, 1,
// 3, 7 and so on. Of two such numbers the larger has all the ones of the lesser, so 'or' is the larger, and eight states are taken at
// once. Ones beside 'none' mean nothing.
// The states have the numbers of machine/src/lib.rt: 0 nothing to 7 ending; 8, dead, has no place in a row.
#![tactic(auto)]

ghost use Rattle.std.specs.Prelude.{◌*◌, ◌+◌, ◌-◌, ◌<◌, ◌≤◌, length, cond, ◌≡◌};
ghost use Rattle.demand.specs.Digits.{demands};
ghost use Rattle.rows.specs.Pairs.{PairShorter, RelaxReady, RelaxedPair, SparedTo, ones_of};
ghost use Rattle.rows.specs.Rows.{LivesAs, NoneTo, Permuted, StateSet, StoredTo, next_at, states};
ghost use Rattle.std.specs.Int.Count.{ones};

use demand::digits::DEMANDS;

// The states that a row has places for.
pub const STATES: usize = 8;

// The numbers of a row: its states for each demand.
pub const NUMBERS: usize = DEMANDS * STATES;

// What stands for no tour.
pub const NONE: u16 = 65535;

// Two rows side by side: the lengths, and the ones beside them.
#[derive(Clone, Copy)]
pub struct Rows {
    pub lengths: [u16; NUMBERS],
    pub ones: [u16; NUMBERS],
}

impl Rows {
    // Two rows to be filled.
    pub const EMPTY: Rows = Rows {
        lengths: [0; NUMBERS],
        ones: [0; NUMBERS],
    };
}

// The lengths of eight states, and the ones beside them. (With a const parameter in place of two structs, a number would stand in
// every signature and clause that names a row.)
#[derive(Clone, Copy)]
pub struct Pair {
    pub lengths: [u16; STATES],
    pub ones: [u16; STATES],
}

// A number, if a test holds; 0 if not.
fn if_so(b: bool, v: u16) -> u16
    ensures { result ≡ cond b v 0 }
{
    if b { v } else { 0 }
}

// The ones that go with the lesser of two lengths: its own; of two equal lengths 'or' of both, the larger.
#[tactic(auto, unfolding(crate::specs::Pairs::ones_of))]
fn ones_of(here: u16, mine: u16, way: u16, theirs: u16) -> u16
    ensures { result ≡ ones_of here mine way theirs }
{
    let least = here.min(way);
    if_so(here == least, mine) | if_so(way == least, theirs)
}

// For each of eight states the shorter of its length and the way of that cost, with the ones that go with it. All are read before
// any is written: the compiler then takes the eight at once.
fn shorter(
    row: &[u16],
    spared: &[u16],
    at: usize,
    perm: &[u16],
    theirs: &[u16],
    from: usize,
    cost: u16,
) -> Pair
    requires { (at + states ≤ length row.now) × (at + states ≤ length spared.now)
        × (from + states ≤ length perm.now) × (from + states ≤ length theirs.now) }
    ensures { PairShorter row.now spared.now at perm.now theirs.now from cost result }
{
    let mut lengths = [0u16; STATES];
    let mut ones = [0u16; STATES];
    for s in 0..STATES {
        let here = row[at + s];
        let mine = spared[at + s];
        let way = cost.saturating_add(perm[from + s]);
        let other = theirs[from + s];
        lengths[s] = here.min(way);
        ones[s] = ones_of(here, mine, way, other);
    }
    Pair { lengths, ones }
}

// Eight numbers into a row. `copy_from_slice` would ask each time whether the two overlap: a row then took twice as long.
fn put(row: &mut [u16], at: usize, eight: [u16; STATES])
    requires { at + states ≤ length row.old }
    ensures { StoredTo row.old row.new eight at states }
{
    for s in 0..STATES {
        row[at + s] = eight[s];
    }
}

// For each demand and state the shorter of its length and the way of that cost to the demand that the map leads to, with the ones
// that go with it.
pub fn relax_row(
    row: &mut [u16],
    spared: &mut [u16],
    perm: &[u16],
    theirs: &[u16],
    map: &[u16],
    base: usize,
    cost: u16,
    weight: usize,
)
    requires { RelaxReady row.old spared.old perm.now theirs.now map.now base weight }
    ensures { RelaxedPair row.old row.new spared.old spared.new
        perm.now theirs.now map.now base cost weight }
{
    for q in 0..weight {
        let from = usize::from(map[base + q]) * STATES;
        let at = q * STATES;
        let eight = shorter(row, spared, at, perm, theirs, from, cost);
        put(row, at, eight.lengths);
        put(spared, at, eight.ones);
    }
}

// The first n numbers of a row are 'none'.
pub fn fill_none(row: &mut [u16], n: usize)
    requires { n ≤ length row.old }
    ensures { NoneTo row.old row.new n }
{
    row[..n].fill(NONE);
}

// The number of a state in a row; 65,535 of the dead one, 8: as a length it is 'none', as ones it means nothing.
#[tactic(auto, unfolding(crate::specs::Rows::next_at))]
pub fn step_value(after: &[u16], to: usize, q: usize) -> u16
    requires { (q < demands) × (q * states + states ≤ length after.now) }
    ensures { result ≡ next_at after.now to q }
{
    if to < STATES {
        after[q * STATES + to]
    } else {
        NONE
    }
}

// One state of a row: the numbers of the state that a step leads to.
fn permute_state(perm: &mut [u16], after: &[u16], s: usize, to: usize, weight: usize)
    requires { (weight ≤ demands) × (s < states) × (weight * states ≤ length perm.old) × (weight * states ≤ length after.now) }
    ensures { StateSet perm.old perm.new after.now s to weight }
{
    for q in 0..weight {
        perm[q * STATES + s] = step_value(after, to, q);
    }
}

// A row, of lengths or of ones, as a step sees it: for each state the number of the state that it leads to.
pub fn permute(perm: &mut [u16], after: &[u16], steps: [usize; STATES], weight: usize)
    requires { (weight ≤ demands) × (weight * states ≤ length perm.old) × (weight * states ≤ length after.now) }
    ensures { Permuted perm.old perm.new after.now steps weight states }
{
    for (s, to) in steps.iter().enumerate() {
        permute_state(perm, after, s, *to, weight);
    }
}

// Whether a step leads on from any state.
pub fn lives(steps: [usize; STATES]) -> bool
    ensures { LivesAs steps result }
{
    steps.iter().any(|to| *to < STATES)
}

// A row of ones with an aisle more that is spared: the first n numbers have a one more each. Sixteen ones stay sixteen.
pub fn spare_one(spared: &mut [u16], n: usize)
    requires { n ≤ length spared.old }
    ensures { SparedTo spared.old spared.new n }
{
    for ones in &mut spared[..n] {
        *ones = *ones % 32768 * 2 + 1;
    }
}

// How many of r aisles are entered: those that have no one.
pub fn entered_of(r: usize, v: u16) -> usize
    ensures { result ≡ r - ones v }
{
    // A count of ones is a u32, which no `usize::from` takes.
    r.saturating_sub(u16::count_ones(v) as usize)
}
