// The picks in the order in which a walk first reaches their cells (#103).
//
// Points are numbered as in `flood`, 26 for each aisle: (aisle, height) is 26 * aisle + height. At the number of its cell each pick is noted;
// the steps of the walk are followed, and a pick is taken out where the walk first meets it.
#![tactic(auto)]

ghost use Rattle.std.specs.Prelude.{◌≡◌, ◌<◌, length, [], ◌∷◌};
ghost use mathlib.Core.List.{Memᴰ};
ghost use Rattle.rules.specs.Page.{along_walk};
ghost use Rattle.values.specs.FixedLists.{items};
ghost use Rattle.visits.specs.Visited.{steps_of_run, walk_of_runs, Walked};
ghost use Rattle.visits.specs.Numbered.{spot_of, noted_all, Ahead, Followed};

use flood::{HEIGHTS, POINTS, depot_number, next_of};
use rules::{Direction, Layout, Pick, Run};
use values::PickList;

// Notes each pick at the number of its cell.
fn note(picks: &[Pick], noted: &mut [Option<Pick>])
    requires { (length noted.old ≡ 442) × ((x : Pick) → Memᴰ x picks.now → spot_of x < 442) }
    ensures { noted.new ≡ noted_all picks.now noted.old }
{
    for pick in picks {
        noted[HEIGHTS * pick.aisle + pick.cell] = Some(*pick);
    }
}

// Takes a step from a point: the pick that is noted where it ends is taken out, and goes behind those met before. The point where it ends.
fn step(
    noted: &mut [Option<Pick>],
    order: &mut PickList,
    from: usize,
    direction: Direction,
) -> usize
    requires { Ahead (direction ∷ []) noted.old (items order.old) from }
    ensures { Followed (direction ∷ []) noted.old (items order.old) from noted.new (items order.new) result }
{
    let at = next_of(from, direction);
    if let Some(pick) = noted[at].take() {
        order.push(pick);
    }
    at
}

// Takes the steps of a run.
fn follow_run(noted: &mut [Option<Pick>], order: &mut PickList, from: usize, run: Run) -> usize
    requires { Ahead (steps_of_run run) noted.old (items order.old) from }
    ensures { Followed (steps_of_run run) noted.old (items order.old) from noted.new (items order.new) result }
{
    let mut at = from;
    for _ in 0..run.steps {
        at = step(noted, order, at, run.direction);
    }
    at
}

// Takes the steps of all runs.
fn follow(noted: &mut [Option<Pick>], order: &mut PickList, from: usize, runs: &[Run]) -> usize
    requires { Ahead (walk_of_runs runs.now) noted.old (items order.old) from }
    ensures { Followed (walk_of_runs runs.now) noted.old (items order.old) from noted.new (items order.new) result }
{
    let mut at = from;
    for run in runs {
        at = follow_run(noted, order, at, *run);
    }
    at
}

// The picks in the order in which the walk of these runs first reaches their cells.
pub fn in_order(layout: Layout, picks: &[Pick], runs: &[Run]) -> PickList
    requires { Walked layout picks.now runs.now }
    ensures { items result ≡ along_walk layout (walk_of_runs runs.now) picks.now }
{
    let mut noted = [None; POINTS];
    note(picks, &mut noted);
    let mut order = PickList::new();
    follow(&mut noted, &mut order, depot_number(layout), runs);
    order
}
