// Equal steps of a walk run together.
#![tactic(auto)]

ghost use Rattle.std.specs.Prelude.{◌≡◌, ◌≤◌, length};
ghost use Rattle.rules.specs.Sheet.{runs_of};
ghost use Rattle.values.specs.FixedLists.{items};
ghost use Rattle.runs.specs.Leading.{leading};

use rules::{Direction, Run};
use values::RunList;

// The most steps of a walk: 25 edges in each of 16 aisles and two between neighbours, each trodden twice.
pub const STEPS: usize = 2 * (16 * 25 + 15 * 2);

// How many steps at the front of a walk lead that way.
fn leading(walk: &[Direction], direction: Direction) -> usize
    ensures value { result ≡ leading direction walk.now }
    ensures bound { result ≤ length walk.now }
{
    walk.iter().take_while(|step| **step == direction).count()
}

// The runs of a walk.
pub fn runs_of(walk: &[Direction]) -> RunList
    requires { length walk.now ≤ 860 }
    ensures { items result ≡ runs_of walk.now }
{
    let mut runs = RunList::new();
    let mut rest = walk;
    while let Some(&direction) = rest.first() {
        let (run, others) = rest.split_at(leading(rest, direction));
        runs.push(Run {
            direction,
            steps: run.len(),
        });
        rest = others;
    }
    runs
}
