// Prints the sheets of two small jobs: their picks are found, their shelves, plans and walks are given.
#![tactic(auto)]

mod top_job;
mod worked_job;

ghost use Rattle.std.specs.Prelude.{◌≡◌, ◌≤◌, length, map};
ghost use Rattle.values.specs.FixedLists.{items};
ghost use Rattle.sheets_test.specs.Jobs.{run_of};

use rules::{Direction, Policy, Run};
use sheets::Sheet;
use std::io::{Result, Write};
use values::RunList;

// The runs of a walk.
fn walk_of(runs: &[(Direction, usize)]) -> RunList
    requires { length runs.now ≤ 860 }
    ensures { items result ≡ map run_of runs.now }
{
    let mut walk = RunList::new();
    for (direction, steps) in runs {
        walk.push(Run {
            direction: *direction,
            steps: *steps,
        });
    }
    walk
}

// Prints the sheet with these parts, if it has at most 512 bytes.
fn show(rt: &HostRuntime, sheet: &Sheet) -> Result<()> {
    let mut space = [0; 512];
    if sheet.size() <= space.len() {
        let size = sheet.write(&mut space);
        std::io::writer(rt).write_all(&space[..size])?;
    }
    Ok(())
}

// Prints the sheet of the worked example.
fn print_worked(rt: &HostRuntime) -> Result<()> {
    let plan = worked_job::plan();
    let picks = picks::picks(worked_job::lines(), 3, &worked_job::shelf(), plan);
    let sheet = Sheet {
        policy: Policy::Exact,
        length: 14,
        plan: &plan,
        picks: &picks,
        runs: &worked_job::runs(),
    };
    show(rt, &sheet)
}

// Prints the sheet of the job whose plan enters from the back.
fn print_top(rt: &HostRuntime) -> Result<()> {
    let plan = top_job::plan();
    let picks = picks::picks(top_job::lines(), 2, &top_job::shelf(), plan);
    let sheet = Sheet {
        policy: Policy::Midpoint,
        length: 20,
        plan: &plan,
        picks: &picks,
        runs: &top_job::runs(),
    };
    show(rt, &sheet)
}

fn main(rt: HostRuntime) -> Result<()> {
    print_worked(&rt)?;
    print_top(&rt)
}
