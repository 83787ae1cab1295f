// The sheet: the text of a plan with its picks and its walk, written into lent space section by section.
#![tactic(auto)]

mod sections;

ghost use Rattle.std.specs.Prelude.{◌-◌, ◌≡◌, ◌≤◌, [], ◌∷◌, length, take};
ghost use Rattle.values.specs.Values.{plan_of};
ghost use Rattle.lines.specs.Written.{Written, Sized};
ghost use Rattle.sheets.specs.Parts.{text_of};

use crate::sections::{section_size, write_section};
use lines::Total;
use rules::{Action, Passage, Policy};
use values::{PickList, PlanValue, RunList};

// What stands on a sheet: the policy, the length, the plan, the picks and the runs of the walk.
#[derive(Clone, Copy)]
pub struct Sheet<'a> {
    pub policy: Policy,
    pub length: usize,
    pub plan: &'a PlanValue,
    pub picks: &'a PickList,
    pub runs: &'a RunList,
}

// The actions of a plan, in front.
fn actions(plan: PlanValue) -> [Action; 16]
    ensures { take plan.aisles result ≡ (plan_of plan).actions }
{
    plan.stages.map(|stage| stage.action)
}

// The passages of a plan, in front: none behind the last aisle.
fn passages(plan: PlanValue) -> [Passage; 16]
    ensures { take (plan.aisles - 1) result ≡ (plan_of plan).passages }
{
    plan.stages.map(|stage| stage.passage)
}

impl Sheet<'_> {
    // The line of the T section.
    fn total(&self) -> [Total; 1]
        ensures { result ≡ record { length = self.now.length; policy = self.now.policy } ∷ [] }
    {
        [Total {
            length: self.length,
            policy: self.policy,
        }]
    }

    // The byte count of the sheet.
    pub fn size(&self) -> usize
        ensures { Sized (text_of self.now) 52963 result }
    {
        let aisles = self.plan.aisles;
        section_size(b'T', &self.total())
            + section_size(b'A', &actions(*self.plan)[..aisles])
            + section_size(b'C', &passages(*self.plan)[..aisles.saturating_sub(1)])
            + section_size(b'P', self.picks.as_slice())
            + section_size(b'W', self.runs.as_slice())
    }

    // Writes the sheet.
    pub fn write(&self, space: &mut [u8]) -> usize
        requires { length (text_of self.now) ≤ length space.old }
        ensures { Written (text_of self.now) space.old space.new result }
    {
        let aisles = self.plan.aisles;
        let mut at = write_section(space, b'T', &self.total());
        at += write_section(&mut space[at..], b'A', &actions(*self.plan)[..aisles]);
        at += write_section(
            &mut space[at..],
            b'C',
            &passages(*self.plan)[..aisles.saturating_sub(1)],
        );
        at += write_section(&mut space[at..], b'P', self.picks.as_slice());
        at + write_section(&mut space[at..], b'W', self.runs.as_slice())
    }
}
