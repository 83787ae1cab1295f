// The first action and the first passage that attain what is sought: a length, and the fewest entered aisles of the whole plan.
ghost use Rattle.std.specs.Prelude.{◌*◌, ◌+◌, ◌<◌, ◌≤◌, ℕ, get_or, length, take, ◌≡◌};
ghost use Rattle.optimum.specs.Routing.{no_tour, sat};
ghost use Rattle.demand.specs.Digits.{demands};
ghost use Rattle.rows.specs.Rows.{states};
ghost use Rattle.router.specs.Choosing.{ActionAsked, ActionTaken, Attained, FirstPass, FirstRank, PassageAsked, PassageTaken, StepAsked, cross_to, is_attained, on_attains, over_attains, step_to, value_at};
ghost use Rattle.aisles.specs.Layers.{InRange};
ghost use Rattle.rules.specs.BestPlan.{actions_of, passages_in_order};
ghost use Rattle.rules.specs.declared.Action.{Action};
ghost use Rattle.rules.specs.declared.Action.TheVariants.{Void};
ghost use Rattle.rules.specs.declared.Passage.TheVariants.{P00};

use aisles::actions::{Reach, action_length, reach_of};
use aisles::layers::Aisle;
use demand::digits::DEMANDS;
use demand::maps::Maps;
use entered::{aisle_count, with_aisle};
use machine::{seen_kind, seen_passage};
use ranks::{action_at, action_count, passage_at};
use rows::{NONE, Rows, entered_of, step_value};
use rules::{Action, Passage};
use table::passages::passage_length;
use values::Stage;

// Where a trace stands: the number of the state, and that of the demand that is open.
#[derive(Clone, Copy)]
pub struct At {
    pub state: usize,
    pub demand: usize,
}

// What is sought from where a trace stands: a length, and the entered aisles of the whole plan. The aisles that it has entered so far are a set,
// a bit each; the bit of the aisle that it is in has the number `aisle`, and so many are left behind it.
#[derive(Clone, Copy)]
pub struct Sought {
    pub at: At,
    pub length: usize,
    pub fewest: usize,
    pub entered: u16,
    pub aisle: usize,
    pub left: usize,
}

// An action that is chosen, and what is sought behind it.
#[derive(Clone, Copy)]
pub struct Taken {
    pub action: Action,
    pub sought: Sought,
}

// The stage of an aisle whose passage is chosen too, where that leads, and the aisles that are entered by then.
#[derive(Clone, Copy)]
pub struct Crossed {
    pub stage: Stage,
    pub at: At,
    pub entered: u16,
}

// The first number below a count that passes a test; the count where none does.
fn first_of<F: Fn(usize) -> bool>(count: usize, test: F) -> usize
    requires { (k : ℕ) → k < count → F.pre test k }
    ensures { FirstPass (F.post test) count result }
{
    for k in 0..count {
        if test(k) {
            return k;
        }
    }
    count
}

// A sum of lengths; no tour where it is that or more.
fn plus(length: usize, rest: usize) -> usize
    requires { (length ≤ no_tour) × (rest ≤ no_tour) }
    ensures { result ≡ sat length rest }
{
    (length + rest).min(usize::from(NONE))
}

// What a row holds for a state and a demand; no tour for the dead state, 8.
fn value_at(row: &[u16], at: At) -> usize
    requires { (at.demand < demands) × (at.demand * states + states ≤ length row.now) }
    ensures { (result ≡ value_at row.now at) × (result ≤ no_tour) }
{
    usize::from(step_value(row, at.state, at.demand))
}

impl Sought {
    // Whether a way attains what is sought: it has the length; and its entered aisles, counted, and those that the rest enters, which has a one
    // for each aisle that it spares of those left, are the fewest.
    fn is_attained(self, entered: u16, length: usize, spared: u16) -> bool
        requires { self.left ≤ 16 }
        ensures { result ≡ is_attained self entered length spared }
    {
        length == self.length && aisle_count(entered) + entered_of(self.left, spared) == self.fewest
    }
}

// Where an action leads.
fn step_to(maps: &Maps, aisle: Aisle, at: At, action: Action) -> At
    requires { StepAsked aisle maps.now.fronts maps.now.backs at action }
    ensures { result ≡ step_to aisle maps.now.fronts maps.now.backs at action }
{
    let seen = seen_kind(aisle.layout.side(), action.kind());
    let state = aisle
        .method
        .action_step(seen, aisle.may, aisle.passes_between(action), at.state);
    let Reach { front, back } = reach_of(aisle.layout.cells, action);
    let open = usize::from(maps.fronts[front * DEMANDS + at.demand]);
    let demand = usize::from(maps.backs[back * DEMANDS + open]);
    At { state, demand }
}

// Whether the way over the action of a rank attains what is sought.
fn over(after: &Rows, maps: &Maps, aisle: Aisle, sought: Sought, rank: usize) -> bool
    requires { ActionAsked aisle maps.now.fronts maps.now.backs sought × (rank < length (actions_of aisle.layout.cells)) }
    ensures { result ≡ over_attains aisle after.now.lengths after.now.ones maps.now.fronts maps.now.backs sought (get_or (actions_of aisle.layout.cells) rank Void) }
{
    let action = action_at(aisle.layout.cells, rank);
    let to = step_to(maps, aisle, sought.at, action);
    let length = plus(
        action_length(aisle.layout, action),
        value_at(&after.lengths, to),
    );
    let spared = step_value(&after.ones, to.state, to.demand);
    sought.is_attained(
        with_aisle(sought.entered, sought.aisle, action),
        length,
        spared,
    )
}

// The rank of the first action over which the way attains what is sought.
fn choose_action(after: &Rows, maps: &Maps, aisle: Aisle, sought: Sought) -> usize
    requires { ActionAsked aisle maps.now.fronts maps.now.backs sought }
    ensures { FirstRank (over_attains aisle after.now.lengths after.now.ones maps.now.fronts maps.now.backs sought) (actions_of aisle.layout.cells) Void result }
{
    first_of(action_count(aisle.layout.cells), |rank| {
        over(after, maps, aisle, sought, rank)
    })
}

// The first action over which the way attains what is sought, which some action does.
pub fn take_action(after: &Rows, maps: &Maps, aisle: Aisle, sought: Sought) -> Taken
    requires { ActionAsked aisle maps.now.fronts maps.now.backs sought
        × Attained (over_attains aisle after.now.lengths after.now.ones maps.now.fronts maps.now.backs sought) (actions_of aisle.layout.cells) }
    ensures { ActionTaken aisle after.now.lengths after.now.ones maps.now.fronts maps.now.backs sought result }
{
    let rank = choose_action(after, maps, aisle, sought);
    let action = action_at(aisle.layout.cells, rank);
    let at = step_to(maps, aisle, sought.at, action);
    let sought = Sought {
        at,
        length: value_at(&after.lengths, at),
        fewest: sought.fewest,
        entered: with_aisle(sought.entered, sought.aisle, action),
        aisle: sought.aisle,
        left: sought.left,
    };
    Taken { action, sought }
}

// Where a passage leads.
fn cross_to(aisle: Aisle, at: At, passage: Passage) -> At
    requires { at.state < 9 }
    ensures { result ≡ cross_to aisle at passage }
{
    let seen = seen_passage(aisle.layout.side(), passage);
    let state = aisle.method.passage_step(seen, aisle.place, at.state);
    At {
        state,
        demand: at.demand,
    }
}

// Whether the way on over the passage of a rank attains what is sought.
fn through(next: &Rows, aisle: Aisle, sought: Sought, rank: usize) -> bool
    requires { PassageAsked aisle sought × (rank < 5) }
    ensures { result ≡ on_attains aisle next.now.lengths next.now.ones sought (get_or passages_in_order rank P00) }
{
    let passage = passage_at(rank);
    let to = cross_to(aisle, sought.at, passage);
    let length = plus(
        passage_length(passage, aisle.layout.width),
        value_at(&next.lengths, to),
    );
    let spared = step_value(&next.ones, to.state, to.demand);
    sought.is_attained(sought.entered, length, spared)
}

// The rank of the first passage over which the way on attains what is sought.
fn choose_passage(next: &Rows, aisle: Aisle, sought: Sought) -> usize
    requires { PassageAsked aisle sought }
    ensures { FirstRank (on_attains aisle next.now.lengths next.now.ones sought) (take aisle.tried passages_in_order) P00 result }
{
    first_of(aisle.tried, |rank| through(next, aisle, sought, rank))
}

// The first passage over which the way on behind an action attains what is sought there, and the stage that the two make.
pub fn take_passage(next: &Rows, aisle: Aisle, taken: Taken) -> Crossed
    requires { PassageAsked aisle taken.sought × Attained (on_attains aisle next.now.lengths next.now.ones taken.sought) (take aisle.tried passages_in_order) }
    ensures { PassageTaken aisle next.now.lengths next.now.ones taken result }
{
    let passage = passage_at(choose_passage(next, aisle, taken.sought));
    let at = cross_to(aisle, taken.sought.at, passage);
    let stage = Stage {
        action: taken.action,
        passage,
    };
    Crossed {
        stage,
        at,
        entered: taken.sought.entered,
    }
}
