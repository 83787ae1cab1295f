// Prints the walks of three plans. The file stdout has those that a search through all walks, in the order of the alphabet, finds first.
#![tactic(auto)]

mod plans;

ghost use Rattle.walks.specs.Lawfully.{LawfulPlan};

use rules::{Layout, Posts, Run, Side};
use std::io::Result;
use values::PlanValue;

// A run: its letter and its steps.
fn print_run(rt: &HostRuntime, run: Run) -> Result<()> {
    let letter = char::from(run.direction.letter());
    let steps = run.steps;
    println!(rt; "{letter} {steps}")
}

// The number of runs, and each of them.
fn print_runs(rt: &HostRuntime, runs: &[Run]) -> Result<()> {
    let count = runs.len();
    println!(rt; "W {count}")?;
    for run in runs {
        print_run(rt, *run)?;
    }
    Ok(())
}

// The walk of a plan.
fn print_walk(rt: &HostRuntime, layout: Layout, plan: PlanValue) -> Result<()>
    requires { LawfulPlan layout plan }
{
    let runs = walks::walk_runs(layout, plan);
    print_runs(rt, runs.as_slice())
}

fn main(rt: HostRuntime) -> Result<()> {
    print_walk(&rt, plans::store(4, 5, 2, Posts::NoPosts), plans::mixed())?;
    print_walk(&rt, plans::store(6, 4, 6, Posts::NoPosts), plans::six())?;
    print_walk(
        &rt,
        plans::store(2, 2, 1, Posts::Sided(1, 0, Side::BackSide)),
        plans::two(),
    )
}
