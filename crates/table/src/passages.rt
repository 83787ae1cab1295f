// The rows behind the actions of an aisle, of lengths and of ones: the ways on over each passage.
ghost use Rattle.std.specs.Prelude.{◌*◌, ◌+◌, ◌<◌, ◌≤◌, ℕ, get_or, length, ◌≡◌};
ghost use Rattle.rows.specs.Rows.{PastKept, states};
ghost use Rattle.table.specs.Crossings.{AfterFilled, CrossingReady, PassageTried, Plain, cross_code};
ghost use Rattle.rules.specs.Plans.{back_treads, front_treads};

use aisles::layers::Aisle;
use demand::digits::DEMANDS;
use demand::maps::plain_row;
use machine::seen_passage;
use ranks::PASSAGES;
use rows::{Rows, STATES, fill_none, lives, permute, relax_row};
use rules::Passage;

// What a passage adds to the length of a plan: 00 nothing, 22 four widths, the others two.
pub fn passage_length(passage: Passage, width: usize) -> usize
    requires { width ≤ 400 }
    ensures { (result ≡ (back_treads passage + front_treads passage) * width) × (result ≤ 1600) }
{
    match passage {
        Passage::P00 => 0,
        Passage::P02 | Passage::P11 | Passage::P20 => 2 * width,
        Passage::P22 => 4 * width,
    }
}

// The state after a passage behind an aisle, for each of eight states.
fn passage_steps(x: Aisle, passage: Passage) -> [usize; STATES]
    ensures { (s : ℕ) → s < states → get_or result s 0 ≡ cross_code x passage s }
{
    let seen = seen_passage(x.layout.side(), passage);
    let mut steps = [0; STATES];
    for s in 0..STATES {
        steps[s] = x.method.passage_step(seen, x.place, s);
    }
    steps
}

// The ways over one passage behind an aisle, for each demand and state. The rows of `way` are scratch, and `plain` leaves every demand
// as it is.
fn relax_passage(
    after: &mut [u16],
    spared: &mut [u16],
    way: &mut Rows,
    next: &[u16],
    theirs: &[u16],
    plain: &[u16; DEMANDS],
    x: Aisle,
    passage: Passage,
)
    requires { CrossingReady x after.old spared.old next.now theirs.now × Plain plain.now x.weight }
    ensures { PassageTried x after.old after.new spared.old spared.new
        next.now theirs.now passage }
{
    let steps = passage_steps(x, passage);
    if lives(steps) {
        permute(&mut way.lengths, next, steps, x.weight);
        permute(&mut way.ones, theirs, steps, x.weight);
        let cost = passage_length(passage, x.layout.width) as u16;
        relax_row(
            after,
            spared,
            &way.lengths,
            &way.ones,
            plain,
            0,
            cost,
            x.weight,
        );
    }
}

// The rows behind the actions of an aisle: for each demand and state the least over the passages that are tried.
pub fn fill_after(after: &mut [u16], spared: &mut [u16], next: &[u16], theirs: &[u16], x: Aisle)
    requires { CrossingReady x after.old spared.old next.now theirs.now }
    ensures { AfterFilled x after.new spared.new next.now theirs.now
        × (length after.new ≡ length after.old) × (length spared.new ≡ length spared.old)
        × PastKept x.weight after.old after.new × PastKept x.weight spared.old spared.new }
{
    let mut way = Rows::EMPTY;
    let mut plain = [0; DEMANDS];
    plain_row(&mut plain, 0, x.weight);
    fill_none(after, x.weight * STATES);
    for passage in &PASSAGES[..x.tried] {
        relax_passage(after, spared, &mut way, next, theirs, &plain, x, *passage);
    }
}
