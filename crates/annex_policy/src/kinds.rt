// The kinds of actions and the passages that the policies name by the depot's side.
ghost use Rattle.std.specs.Prelude.{◌≡◌};
ghost use Rattle.rules.specs.Policies.{side_kind, side_passage};

use rules::{Kind, Passage, Side};

// BOTTOM, where a policy names it without TOP; with the depot at the back it reads TOP (#109).
pub fn side_kind(side: Side) -> Kind
    ensures { result ≡ side_kind side }
{
    match side {
        Side::FrontSide => Kind::Bottom,
        Side::BackSide => Kind::Top,
    }
}

// 02, where a policy names it without 20; with the depot at the back it reads 20 (#109).
pub fn side_passage(side: Side) -> Passage
    ensures { result ≡ side_passage side }
{
    match side {
        Side::FrontSide => Passage::P02,
        Side::BackSide => Passage::P20,
    }
}
