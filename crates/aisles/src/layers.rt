// One aisle of the table: the ways over all its actions, a kind of action at a time. Lengths and ones go side by side
// (rows/src/lib.rt): `spared` has the ones beside the row that is written, `theirs` those beside the row that is read. The least is
// the shortest, and of equals the one that spares more aisles.
ghost use Rattle.std.specs.Prelude.{◌*◌, ◌+◌, ◌<◌, ◌≤◌, ◌||◌, ℕ, get_or, length, not, true, ◌≡◌};
ghost use Rattle.demand.specs.Digits.{demands};
ghost use Rattle.demand.specs.Maps.{heights};
ghost use Rattle.aisles.specs.Layers.{AisleReady, LaneReady, RowFilled, RowsPassed, RowsStepped, TurnsOf, step_with};
ghost use Rattle.rows.specs.Pairs.{KeysRelaxed, RelaxReady};
ghost use Rattle.rows.specs.Rows.{PastKept, numbers, states};
ghost use Rattle.aisles.specs.Turns.{BacksHeld, BacksReady, RowsSwept, SweepReady, Thinned, back_at, back_turn, front_at, front_turn, kept_turn, least_back};
ghost use Rattle.machine.specs.Tables.{is_tested};
ghost use Rattle.rules.specs.Store.{layout_in_bounds};

use crate::actions::{back_cost, front_cost};
use crate::repeats::{Repeats, repeats_of};
use between::{Between, HEIGHTS};
use demand::digits::DEMANDS;
use machine::{Method, Place, seen_kind};
use rows::{NONE, Rows, STATES, fill_none, lives, permute, relax_row, spare_one};
use rules::{Kind, Layout};

// The kinds of actions in turn, and those that are asked the test for aisles between.
const KINDS: [Kind; 6] = [
    Kind::Void,
    Kind::Bottom,
    Kind::Top,
    Kind::Gap,
    Kind::Once,
    Kind::Twice,
];

const TESTED: [Kind; 3] = [Kind::Bottom, Kind::Top, Kind::Gap];

// What the table needs of an aisle: the layout, the policy, whether it may be entered, the weight, where it lies, how many passages
// are tried behind it, and the test for aisles between.
#[derive(Clone, Copy)]
pub struct Aisle {
    pub layout: Layout,
    pub method: Method,
    pub may: bool,
    pub weight: usize,
    pub place: Place,
    pub tried: usize,
    pub between: Between,
}

// What the turns of a kind of action cost, by the cell that the front and the back part reach: 65,535 where it has none, or where a
// turn is left out. That and no `None`: a way of that length is none in the rows, too. `from` is the least height of a back turn that
// goes with a front turn, `top` that of the back crossing. Three arrays and no array of structs: each is read in runs of its own.
#[derive(Clone, Copy)]
pub struct Turns {
    pub front: [u16; HEIGHTS],
    pub back: [u16; HEIGHTS],
    pub from: [usize; HEIGHTS],
    pub top: usize,
}

// The maps of an aisle, as they are lent.
#[derive(Clone, Copy)]
struct MapsRef<'a> {
    fronts: &'a [u16],
    backs: &'a [u16],
}

// An aisle, its maps, and which cells of it supply nothing new.
#[derive(Clone, Copy)]
struct Lane<'a> {
    aisle: Aisle,
    maps: MapsRef<'a>,
    same: Repeats,
}

// Rows to work in, made once and lent to each kind of action: the rows behind it as it sees them, and the best over its back turns.
#[derive(Clone, Copy)]
struct Scratch {
    way: Rows,
    best: Rows,
}

// The state after a kind of action, for each of eight states.
fn steps_of(aisle: Aisle, kind: Kind, between: bool) -> [usize; STATES]
    ensures { (s : ℕ) → s < states → get_or result s 0 ≡ step_with aisle kind between s }
{
    let seen = seen_kind(aisle.layout.side(), kind);
    let mut steps = [0usize; STATES];
    for s in 0..STATES {
        steps[s] = aisle.method.action_step(seen, aisle.may, between, s);
    }
    steps
}

// Whether an action of a kind has a front part that reaches height h; 0 for none. (The front and the back of a kind are tested and
// charged by rules of their own, so each has its function.)
fn front_at(cells: usize, kind: Kind, h: usize) -> bool
    ensures { result ≡ front_at cells kind h }
{
    match kind {
        Kind::Void | Kind::Top => h == 0,
        Kind::Bottom => (1..=cells).contains(&h),
        Kind::Gap => (1..cells).contains(&h),
        Kind::Once | Kind::Twice => h == cells,
    }
}

// Whether an action of a kind has a back part that reaches height i; the back crossing for none.
fn back_at(top: usize, kind: Kind, i: usize) -> bool
    ensures { result ≡ back_at top kind i }
{
    match kind {
        Kind::Top => (1..top).contains(&i),
        Kind::Gap => (2..top).contains(&i),
        _ => i == top,
    }
}

// The front turn of a kind at height h, if it may turn there.
#[tactic(auto, unfolding(crate::specs::Turns::front_turn))]
fn front_turn(z: Layout, kind: Kind, h: usize, may: bool) -> u16
    requires { layout_in_bounds z ≡ true }
    ensures { result ≡ front_turn z kind h may }
{
    if front_at(z.cells, kind, h) && may {
        front_cost(z, kind, h) as u16
    } else {
        NONE
    }
}

// The back turn of a kind at height i, if it may turn there.
#[tactic(auto, unfolding(crate::specs::Turns::back_turn))]
fn back_turn(z: Layout, kind: Kind, i: usize, may: bool) -> u16
    requires { layout_in_bounds z ≡ true }
    ensures { result ≡ back_turn z kind i may }
{
    if back_at(z.cells + 1, kind, i) && may {
        back_cost(z, i) as u16
    } else {
        NONE
    }
}

// The least height of a back turn that goes with a front turn at height h: what the test says, if it is asked, or the next one.
fn least_back(between: bool, from: usize, h: usize) -> usize
    requires { h < heights }
    ensures { result ≡ least_back between from h }
{
    if between { from } else { h + 1 }
}

// Whether a part of an action may turn at a height: everywhere, or if the test for aisles between is asked, where that allows it.
fn may_turn(between: bool, allowed: bool) -> bool
    ensures { result ≡ (not between || allowed) }
{
    !between || allowed
}

// The turns of a kind; with the test those that the test for aisles between allows.
fn turns_of(aisle: Aisle, kind: Kind, between: bool) -> Turns
    requires { layout_in_bounds aisle.layout ≡ true }
    ensures { TurnsOf aisle kind between result }
{
    let z = aisle.layout;
    let test = aisle.between;
    let mut front = [NONE; HEIGHTS];
    let mut back = [NONE; HEIGHTS];
    let mut from = [0usize; HEIGHTS];
    let top = z.cells + 1;
    for h in 0..=top {
        front[h] = front_turn(z, kind, h, may_turn(between, test.front[h]));
        back[h] = back_turn(z, kind, h, may_turn(between, test.back[h]));
        from[h] = least_back(between, test.from[h], h);
    }
    Turns {
        front,
        back,
        from,
        top,
    }
}

// A turn, unless that of the neighbouring height leaves the same demand and costs no more.
#[tactic(auto, unfolding(crate::specs::Turns::kept_turn))]
fn kept_turn(same: bool, neighbour: u16, cost: u16) -> u16
    ensures { result ≡ kept_turn same neighbour cost }
{
    if same && neighbour <= cost {
        NONE
    } else {
        cost
    }
}

// The turns without those that a shorter part replaces: one cell lower in front, one cell higher at the back.
fn thin(turns: Turns, same: Repeats) -> Turns
    requires { turns.top < heights }
    ensures { Thinned turns same result }
{
    let mut front = turns.front;
    let mut back = turns.back;
    for h in 0..turns.top {
        front[h + 1] = kept_turn(same.front[h], turns.front[h], turns.front[h + 1]);
        back[h] = kept_turn(same.back[h], turns.back[h + 1], turns.back[h]);
    }
    Turns {
        front,
        back,
        from: turns.from,
        top: turns.top,
    }
}

// Two rows relaxed over a turn at height h, if there is one.
fn relax_turn(
    row: &mut [u16],
    spared: &mut [u16],
    perm: &[u16],
    theirs: &[u16],
    map: &[u16],
    h: usize,
    cost: u16,
    weight: usize,
)
    requires { (h < heights) × RelaxReady row.old spared.old perm.now theirs.now map.now (h * demands) weight }
    ensures { KeysRelaxed row.old row.new spared.old spared.new
        perm.now theirs.now map.now (h * demands) cost weight }
{
    if cost < NONE {
        relax_row(row, spared, perm, theirs, map, h * DEMANDS, cost, weight);
    }
}

// The back turns that go with a front turn at height h, let in to those that go with one at the next height.
fn admit(best: &mut Rows, way: &Rows, backs: &[u16], turns: Turns, h: usize, weight: usize)
    requires { BacksReady backs.now turns weight × (h < turns.top)
        × BacksHeld best.old.lengths best.old.ones way.now.lengths way.now.ones backs.now turns weight (get_or turns.from (h + 1) 0) }
    ensures { BacksHeld best.new.lengths best.new.ones way.now.lengths way.now.ones backs.now turns weight (get_or turns.from h 0) }
{
    for i in (turns.from[h]..turns.from[h + 1]).rev() {
        relax_turn(
            &mut best.lengths,
            &mut best.ones,
            &way.lengths,
            &way.ones,
            backs,
            i,
            turns.back[i],
            weight,
        );
    }
}

// All actions of a kind in one sweep: the best over the back turns that go with height h is kept while h falls, so that each
// turn costs a row, and not each pair of turns.
fn sweep(
    row: &mut [u16],
    spared: &mut [u16],
    best: &mut Rows,
    way: &Rows,
    maps: MapsRef,
    turns: Turns,
    weight: usize,
)
    requires { SweepReady row.old spared.old maps.fronts.now maps.backs.now turns weight }
    ensures { RowsSwept row.old row.new spared.old spared.new
        way.now.lengths way.now.ones maps.entry.fronts.now maps.entry.backs.now turns weight 0 }
{
    fill_none(&mut best.lengths, weight * STATES);
    for h in (0..turns.top).rev() {
        admit(best, way, maps.backs, turns, h, weight);
        relax_turn(
            row,
            spared,
            &best.lengths,
            &best.ones,
            maps.fronts,
            h,
            turns.front[h],
            weight,
        );
    }
}

// Two rows as a kind of action sees them: for each state the numbers of the state that it leads to, and under VOID a one more, since
// the aisle is spared.
fn step_rows(
    way: &mut Rows,
    after: &[u16],
    theirs: &[u16],
    steps: [usize; STATES],
    kind: Kind,
    weight: usize,
)
    requires { (weight ≤ demands) × (numbers ≤ length after.now) × (numbers ≤ length theirs.now) }
    ensures { RowsStepped way.new.lengths way.new.ones after.now theirs.now steps kind weight }
{
    permute(&mut way.lengths, after, steps, weight);
    permute(&mut way.ones, theirs, steps, weight);
    if kind == Kind::Void {
        spare_one(&mut way.ones, weight * STATES);
    }
}

// The ways over the actions of a kind; with the test those that pass the test for aisles between.
fn relax_kind(
    row: &mut [u16],
    spared: &mut [u16],
    scratch: &mut Scratch,
    after: &[u16],
    theirs: &[u16],
    lane: Lane,
    kind: Kind,
    between: bool,
)
    requires { LaneReady lane × (numbers ≤ length row.old) × (numbers ≤ length spared.old)
        × (numbers ≤ length after.now) × (numbers ≤ length theirs.now) × (between ≡ true → is_tested kind ≡ true) }
    ensures { RowsPassed lane.entry.aisle row.old row.new spared.old spared.new
        after.now theirs.now lane.entry.maps.fronts.now lane.entry.maps.backs.now kind between }
{
    let aisle = lane.aisle;
    let weight = aisle.weight;
    let steps = steps_of(aisle, kind, between);
    if lives(steps) {
        step_rows(&mut scratch.way, after, theirs, steps, kind, weight);
        let turns = thin(turns_of(aisle, kind, between), lane.same);
        sweep(
            row,
            spared,
            &mut scratch.best,
            &scratch.way,
            lane.maps,
            turns,
            weight,
        );
    }
}

// An aisle with the cells that supply nothing new, by its maps.
fn lane_of<'a>(aisle: Aisle, fronts: &'a [u16], backs: &'a [u16]) -> Lane<'a>
    requires { AisleReady aisle fronts.now backs.now }
    ensures { (result.aisle ≡ aisle) × (result.maps.fronts.now ≡ fronts.now) × (result.maps.backs.now ≡ backs.now) × LaneReady result }
{
    let top = aisle.layout.cells + 1;
    let front = repeats_of(fronts, top, aisle.weight);
    let back = repeats_of(backs, top, aisle.weight);
    let maps = MapsRef { fronts, backs };
    let same = Repeats { front, back };
    Lane { aisle, maps, same }
}

// The rows of an aisle: for each demand and state the least over all actions. Behind the kinds in turn, MIDPOINT and LARGEST take BOTTOM,
// TOP and GAP once more, as far as they pass the test for aisles between.
pub fn fill_row(
    row: &mut [u16],
    spared: &mut [u16],
    after: &[u16],
    theirs: &[u16],
    fronts: &[u16],
    backs: &[u16],
    aisle: Aisle,
)
    requires { AisleReady aisle fronts.now backs.now × (numbers ≤ length row.old) × (numbers ≤ length spared.old)
        × (numbers ≤ length after.now) × (numbers ≤ length theirs.now) }
    ensures { RowFilled aisle row.new spared.new after.now theirs.now fronts.now backs.now
        × (length row.new ≡ length row.old) × (length spared.new ≡ length spared.old)
        × PastKept aisle.weight row.old row.new × PastKept aisle.weight spared.old spared.new }
{
    let lane = lane_of(aisle, fronts, backs);
    let mut scratch = Scratch {
        way: Rows::EMPTY,
        best: Rows::EMPTY,
    };
    fill_none(row, aisle.weight * STATES);
    for kind in KINDS {
        relax_kind(row, spared, &mut scratch, after, theirs, lane, kind, false);
    }
    if aisle.method.asks_between() {
        for kind in TESTED {
            relax_kind(row, spared, &mut scratch, after, theirs, lane, kind, true);
        }
    }
}
