// What the tests ask of a job, noted once: which aisles may be entered, and the test for aisles between.
ghost use Prim.Native.Nat.{◌-◌, ◌≤◌, ℕ};
ghost use lib.ListN.{get_or};
ghost use mathlib.Core.Bool.{false, true};
ghost use mathlib.Core.Path.{◌≡◌};
ghost use Rattle.rules.specs.Jobs.{Job};
ghost use Rattle.rules.specs.Store.{layout_in_bounds};
ghost use Rattle.annex_policy.specs.Middle.{BetweenAsked, is_largest};
ghost use Rattle.annex_policy.specs.Ruled.{enters_any, may_be_entered};
ghost use Rattle.annex_policy.specs.Noted.{ShelfFor};

use between::{Between, between_of};
use rules::{Layout, Policy};
use shelves::{holds_listed, listed_cells};
use values::Shelf;

// Whether a policy lets aisles be entered that hold no article of the list: EXACT alone does.
fn enters_any(policy: Policy) -> bool
    ensures { result ≡ enters_any policy }
{
    matches!(policy, Policy::Exact)
}

// Whether a policy is LARGEST, which has a test of its own for aisles between (#104).
fn is_largest(policy: Policy) -> bool
    ensures { result ≡ is_largest policy }
{
    matches!(policy, Policy::Largest)
}

// Which aisles may be entered, aisle j at j - 1: open ones (#106) that hold an article of the list, under EXACT all open ones.
pub fn enterable(z: Layout, policy: Policy, shelf: Shelf) -> [bool; 16]
    requires { (z.cells ≤ 24) × (z.aisles ≤ 16) }
    ensures { (job : Job) → ShelfFor job z policy shelf → (j : ℕ) → 1 ≤ j → j ≤ z.aisles → get_or result (j - 1) false ≡ may_be_entered job j }
{
    let any = enters_any(policy);
    let mut may = [false; 16];
    for j in 0..z.aisles {
        // `&` and `|`: with `&&` and `||` one equation would be proved in three cases.
        may[j] = shelf.open[j] & (any | holds_listed(&shelf, z.cells, j + 1));
    }
    may
}

// The test for aisles between the first and the last entered, LARGEST's or MIDPOINT's, aisle j at j - 1.
pub fn betweens(z: Layout, policy: Policy, shelf: Shelf) -> [Between; 3]
    requires { (layout_in_bounds z ≡ true) × (z.aisles ≤ 3) }
    ensures { (job : Job) → ShelfFor job z policy shelf → BetweenAsked (is_largest policy) job z result }
{
    let gaps = is_largest(policy);
    let first = between_of(z, gaps, listed_cells(&shelf, z.cells, 1));
    let mut betweens = [first; 3];
    for j in 0..z.aisles {
        betweens[j] = between_of(z, gaps, listed_cells(&shelf, z.cells, j + 1));
    }
    betweens
}
