// How far the heights of an aisle lie from the front.
ghost use Rattle.std.specs.Prelude.{◌≤◌, true, ◌≡◌};
ghost use Rattle.rules.specs.Store.{PostsWithin, aisle_length, cell_position, layout_in_bounds, position, posts_before};

use rules::{Layout, Posts};

// What the posts before cell i take.
fn posts_before(posts: Posts, i: usize) -> usize
    requires { (PostsWithin posts) × (1 ≤ i) × (i ≤ 24) }
    ensures { (result ≡ posts_before posts i) × (result ≤ 230) }
{
    match posts {
        Posts::NoPosts => 0,
        Posts::Every(k, u) | Posts::Sided(k, u, _) => u * ((i - 1) / k),
    }
}

// How far cell i lies from the front.
fn cell_position(z: Layout, i: usize) -> usize
    requires { (layout_in_bounds z ≡ true) × (1 ≤ i) × (i ≤ 24) }
    ensures { (result ≡ cell_position z i) × (result ≤ 980) }
{
    let posts = z.posts;
    z.front + (i - 1) * z.pitch + posts_before(posts, i)
}

// The length of an aisle.
pub fn aisle_length(z: Layout) -> usize
    requires { layout_in_bounds z ≡ true }
    ensures { (result ≡ aisle_length z) × (result ≤ 1040) }
{
    cell_position(z, z.cells) + z.back
}

// The distance of a height from the front.
pub fn position_of(z: Layout, k: usize) -> usize
    requires { layout_in_bounds z ≡ true }
    ensures { (result ≡ position z k) × (result ≤ 1040) }
{
    if k == 0 {
        0
    } else if k <= z.cells {
        cell_position(z, k)
    } else {
        aisle_length(z)
    }
}
