// MIDPOINT's test: the front part in the front half, the back part in the back half.
ghost use Rattle.between.specs.Between.{halves_of};
ghost use Rattle.rules.specs.Policies.{in_back_half, in_front_half};
ghost use Rattle.rules.specs.Store.{layout_in_bounds};
ghost use Rattle.std.specs.Prelude.{true, ◌≡◌};

use crate::positions::{aisle_length, position_of};
use crate::{Between, HEIGHTS};
use rules::Layout;

// Whether a front part keeps to the front half.
fn front_half(z: Layout, k: usize) -> bool
    requires { layout_in_bounds z ≡ true }
    ensures { result ≡ in_front_half z k }
{
    2 * position_of(z, k) <= aisle_length(z)
}

// Whether a back part keeps to the back half.
fn back_half(z: Layout, k: usize) -> bool
    requires { layout_in_bounds z ≡ true }
    ensures { result ≡ in_back_half z k }
{
    aisle_length(z) <= 2 * position_of(z, k)
}

// The halves, height by height; any back turn past a front turn goes with it.
pub(crate) fn halves_of(z: Layout) -> Between
    requires { layout_in_bounds z ≡ true }
    ensures { result ≡ halves_of z }
{
    let mut front = [false; HEIGHTS];
    let mut back = [false; HEIGHTS];
    let mut from = [0; HEIGHTS];
    for h in 0..HEIGHTS {
        front[h] = front_half(z, h);
        back[h] = back_half(z, h);
        from[h] = h + 1;
    }
    Between { front, back, from }
}
