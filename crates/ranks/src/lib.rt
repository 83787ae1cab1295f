// The actions of an aisle by rank, and the passages by rank.
#![tactic(auto)]

ghost use Prim.Native.Nat.{◌<◌, ◌≤◌};
ghost use lib.ListN.{get_or, length};
ghost use mathlib.Core.Path.{◌≡◌};
ghost use Rattle.rules.specs.declared.Action.TheVariants.{Void};
ghost use Rattle.rules.specs.declared.Passage.TheVariants.{P00};
ghost use Rattle.rules.specs.BestPlan.{actions_of, passages_in_order};
ghost use Rattle.ranks.specs.Gaps.{gaps_from};

use rules::{Action, Passage};

// How many actions an aisle with that many cells has.
const COUNTS: [usize; 25] = [
    3, 5, 8, 12, 17, 23, 30, 38, 47, 57, 68, 80, 93, 107, 122, 138, 155, 173, 192, 212, 233, 255,
    278, 302, 327,
];

// The passages by rank: in the order in which they are tried.
pub const PASSAGES: [Passage; 5] = [
    Passage::P00,
    Passage::P02,
    Passage::P11,
    Passage::P20,
    Passage::P22,
];

// The number of actions of an aisle.
pub fn action_count(cells: usize) -> usize
    requires { cells ≤ 24 }
    ensures { result ≡ length (actions_of cells) }
{
    COUNTS[cells]
}

// The GAP with the number g among those of an aisle, or ONCE and TWICE behind them.
fn gap_at(cells: usize, g: usize) -> Action
    requires { (cells ≤ 24) × (g < length (gaps_from cells 1 cells)) }
    ensures { result ≡ get_or (gaps_from cells 1 cells) g Void }
{
    let mut rest = g;
    for h in 1..cells + 1 {
        if rest < cells - h {
            return Action::Gap(h, h + 1 + rest);
        }
        rest -= cells - h;
    }
    if rest == 0 {
        Action::Once
    } else {
        Action::Twice
    }
}

// The action of a rank.
pub fn action_at(cells: usize, rank: usize) -> Action
    requires { (cells ≤ 24) × (rank < length (actions_of cells)) }
    ensures { result ≡ get_or (actions_of cells) rank Void }
{
    if rank == 0 {
        return Action::Void;
    }
    if rank <= cells {
        return Action::Bottom(rank);
    }
    if rank <= 2 * cells {
        return Action::Top(2 * cells + 1 - rank);
    }
    gap_at(cells, rank - (2 * cells + 1))
}

// The passage of a rank.
#[tactic(auto, unfolding(rules::specs::BestPlan::passages_in_order))]
pub fn passage_at(rank: usize) -> Passage
    requires { rank < 5 }
    ensures { result ≡ get_or passages_in_order rank P00 }
{
    PASSAGES[rank]
}
