// Three plans with TWICE and 22: no sheet of tests/vectors or tests/cases has TWICE, and only four have 22.
ghost use Rattle.std.specs.Prelude.{◌≡◌, ◌≤◌, length};
ghost use Rattle.walks_test.specs.Plans.{store_of, stage, padded, mixed, six, two};

use rules::{Action, Layout, Passage, Posts};
use values::{PlanValue, Stage};

// A store in which all distances are 1.
pub fn store(aisles: usize, cells: usize, depot: usize, posts: Posts) -> Layout
    ensures { result ≡ store_of aisles cells depot posts }
{
    Layout {
        aisles,
        cells,
        front: 1,
        pitch: 1,
        back: 1,
        width: 1,
        depot,
        posts,
    }
}

// An action and the passage behind it.
fn stage(action: Action, passage: Passage) -> Stage
    ensures { result ≡ stage action passage }
{
    Stage { action, passage }
}

// A plan of the aisles from the first on.
fn plan_with(given: &[Stage]) -> PlanValue
    requires { length given.now ≤ 16 }
    ensures aisles { result.aisles ≡ length given.now }
    ensures stages { result.stages ≡ padded given.now }
{
    let mut stages = [stage(Action::Void, Passage::P00); 16];
    stages[..given.len()].copy_from_slice(given);
    PlanValue {
        aisles: given.len(),
        stages,
    }
}

// VOID 22 ONCE 11 ONCE 22 TWICE.
pub fn mixed() -> PlanValue
    ensures { result ≡ mixed }
{
    plan_with(&[
        stage(Action::Void, Passage::P22),
        stage(Action::Once, Passage::P11),
        stage(Action::Once, Passage::P22),
        stage(Action::Twice, Passage::P00),
    ])
}

// GAP 1 3 22 GAP 3 4 22 TWICE 02 TWICE 20 TWICE 22 TOP 3.
pub fn six() -> PlanValue
    ensures { result ≡ six }
{
    plan_with(&[
        stage(Action::Gap(1, 3), Passage::P22),
        stage(Action::Gap(3, 4), Passage::P22),
        stage(Action::Twice, Passage::P02),
        stage(Action::Twice, Passage::P20),
        stage(Action::Twice, Passage::P22),
        stage(Action::Top(3), Passage::P00),
    ])
}

// TWICE 22 TWICE.
pub fn two() -> PlanValue
    ensures { result ≡ two }
{
    plan_with(&[
        stage(Action::Twice, Passage::P22),
        stage(Action::Twice, Passage::P00),
    ])
}
