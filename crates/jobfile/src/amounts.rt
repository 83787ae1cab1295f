// The weight of the list: refusal 7.
ghost use Rattle.std.specs.Prelude.{◌≡◌, true, ltb};
ghost use Rattle.rules.specs.Lists.{all_of};
ghost use Rattle.rules.specs.Refusals.{line_in_bounds, weight};

use rules::OrderLine;

// Whether the weight of the list is above 256. A weight above it only grows, so the product never wraps.
pub fn too_heavy(lines: &[OrderLine]) -> bool
    requires { all_of line_in_bounds lines.now ≡ true }
    ensures { result ≡ ltb 256 (weight lines.now) }
{
    let mut product: usize = 1;
    for line in lines {
        product *= line.quantity + 1;
        if 256 < product {
            return true;
        }
    }
    false
}
