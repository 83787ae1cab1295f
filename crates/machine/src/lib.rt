// The state machine as data: what an action and a passage do to the state under a policy.
//
// States: 0 nothing, 1 closed, 2 at_front, 3 at_back, 4 odd, 5 joined, 6 split, 7 ending, 8 dead. They are numbers and no enum: a state is
// read out of a digit of the tables here, looped over, and added to a place in rows of eight, `demand * 8 + state`. An enum would be
// turned into its number at each place, and, since Rust has no way back from a number, by a match at each digit and at each loop.
//
// The tables are those of a depot at the front. With the depot at the back they are asked by the kind and by the passage as they are seen
// from there (`seen_kind`, `seen_passage`).
#![tactic(auto)]

ghost use Rattle.std.specs.Prelude.{◌≡◌, false, ◌&&◌, ◌||◌, ◌+◌, ◌*◌, ◌≤◌, ◌<◌};
ghost use Rattle.rules.specs.declared.Side.TheVariants.{FrontSide};
ghost use Rattle.rules.specs.Turned.{passage_from};
ghost use Rattle.rules.specs.Policies.{action_named, passage_named};
ghost use Rattle.rules.specs.Machine.{may_enter, is_void};
ghost use Rattle.machine.specs.States.{state_code, state_of};
ghost use Rattle.machine.specs.Steps.{place_number, sample_action, kind_from, step_of, cross_of};
ghost use Rattle.machine.specs.Tables.{asks_between, asks_gap, automaton_by, automaton_of, row_of, policy_mark, action_mark, passage_mark, decided};

use rules::{End, Kind, Passage, Policy, Side};

// The states that `decide` and the steps name.
const ODD: usize = 4;

const DEAD: usize = 8;

// Columns of a policy's row behind its kinds.
const FIRST_PASSAGE: usize = 7;

const AUTOMATON: usize = 13;

const ANYWHERE: usize = 15;

const TEST: usize = 17;

// A row for each policy, two for TRAVERSAL: its kinds and its passages, '-' where it lacks one; its automaton; '+' if it may enter any
// open aisle, '-' if only those that hold a listed article; its test for aisles between: 'h' the halves, 'g' the largest gap, '-' none.
const POLICIES: [u8; 126] = *b"\
    012345 01234 0 + -\
    01---- 01--- 0 - -\
    01--4- 012-- 1 - -\
    01234- 012-- 2 - h\
    012-4- 0123- 0 - -\
    01234- 012-- 2 - g\
    01--4- 012-- 3 - -";

// A row for each kind of action, with a part for each automaton: the next state of each state. 282645688 leads from 0 to 2,
// from 1 to 8 (dead), from 2 to 2, from 3 to 6. 9 is odd if the test for aisles between allows the action, dead if not.
const ACTIONS: [u8; 240] = *b"\
    012345678 012345678 012345678 012345678 \
    282645688 787888888 787898888 787888888 \
    386345688 888888888 888898888 888888888 \
    686645688 888888888 888898888 888888888 \
    484454488 484858888 484878888 484878848 \
    585545588 888888888 888888888 888888888 ";

// A row for each passage, with a part for each place of the aisle before it: the next state of each state.
const PASSAGES: [u8; 150] = *b"\
    018888888 811881818 011181818 \
    282882878 282882878 282882878 \
    888848888 888848888 888848888 \
    388383888 888883888 388383888 \
    686685688 686685688 686685688 ";

// Where the aisle before a passage lies: left of the depot, at it or right of it.
#[derive(Clone, Copy, PartialEq, Eq)]
pub enum Place {
    Left,
    At,
    Right,
}

// The automata, in the order of the parts of a row of ACTIONS, whose digits stand in POLICIES: the lawful one (EXACT, RETURN and
// COMPOSITE), TRAVERSAL's that walks back at the right end, that of MIDPOINT and LARGEST, TRAVERSAL's that walks back at the left end.
#[derive(Clone, Copy, PartialEq, Eq)]
enum Automaton {
    Lawful,
    TraversalRight,
    Midpoint,
    TraversalLeft,
}

// A policy, and the end at which TRAVERSAL walks an aisle back.
#[derive(Clone, Copy, PartialEq, Eq)]
pub struct Method {
    pub policy: Policy,
    pub end: End,
}

impl Method {
    // The row of a method in POLICIES.
    fn row(self) -> usize
        ensures { (result ≡ row_of self.policy self.end) × (result < 7) }
    {
        match (self.policy, self.end) {
            (Policy::Exact, _) => 0,
            (Policy::Return, _) => 1,
            (Policy::Traversal, End::Rightmost) => 2,
            (Policy::Midpoint, _) => 3,
            (Policy::Composite, _) => 4,
            (Policy::Largest, _) => 5,
            (Policy::Traversal, End::Leftmost) => 6,
        }
    }

    // What stands in a column of that row.
    fn mark(self, column: usize) -> u8
        requires { column < 18 }
        ensures { result ≡ policy_mark self.policy self.end column }
    {
        POLICIES[self.row() * 18 + column]
    }

    // The automaton of a method.
    fn automaton(self) -> Automaton
        ensures { result ≡ automaton_of self.policy self.end }
    {
        match self.mark(AUTOMATON) {
            b'0' => Automaton::Lawful,
            b'1' => Automaton::TraversalRight,
            b'2' => Automaton::Midpoint,
            _ => Automaton::TraversalLeft,
        }
    }

    // The policy has the action, and the action enters no aisle that may not be entered.
    fn possible(self, kind: Kind, may: bool) -> bool
        ensures { result ≡ (action_named FrontSide self.policy (sample_action kind) && (is_void (sample_action kind) || may)) }
    {
        self.mark(kind as usize) != b'-' && (kind == Kind::Void || may)
    }

    // The policy has the passage.
    fn passable(self, passage: Passage) -> bool
        ensures { result ≡ passage_named FrontSide self.policy passage }
    {
        self.mark(FIRST_PASSAGE + passage as usize) != b'-'
    }

    // Whether the policy lets any open aisle be entered, also one that holds no listed article.
    pub fn enters_any(self) -> bool
        ensures { result ≡ may_enter self.policy false }
    {
        self.mark(ANYWHERE) == b'+'
    }

    // Whether the policy asks the test for aisles between.
    pub fn asks_between(self) -> bool
        ensures { result ≡ asks_between self.policy }
    {
        self.automaton() == Automaton::Midpoint
    }

    // Whether the policy's test for aisles between is the largest gap.
    pub fn asks_gap(self) -> bool
        ensures { result ≡ asks_gap self.policy }
    {
        self.mark(TEST) == b'g'
    }

    // The state after an action; whether the aisle may be entered, and whether the action passes the test for aisles between.
    pub fn action_step(self, kind: Kind, may: bool, between: bool, state: usize) -> usize
        requires { state < 9 }
        ensures { result ≡ state_code (step_of self.policy self.end (sample_action kind) may between (state_of state)) }
    {
        if !self.possible(kind, may) {
            return DEAD;
        }
        next_state(self.automaton(), kind, between, state)
    }

    // The state after a passage.
    pub fn passage_step(self, passage: Passage, place: Place, state: usize) -> usize
        requires { state < 9 }
        ensures { result ≡ state_code (cross_of self.policy passage place (state_of state)) }
    {
        if !self.passable(passage) {
            return DEAD;
        }
        number(passage_digit(passage, place, state))
    }
}

// The digit of a state in an automaton's part of a kind's row.
fn action_digit(kind: Kind, automaton: Automaton, state: usize) -> u8
    requires { state < 9 }
    ensures { result ≡ 48 + action_mark kind automaton state }
{
    ACTIONS[kind as usize * 40 + automaton as usize * 10 + state]
}

// The digit of a state in a place's part of a passage's row.
fn passage_digit(passage: Passage, place: Place, state: usize) -> u8
    requires { state < 9 }
    ensures { result ≡ 48 + passage_mark passage (place_number place) state }
{
    PASSAGES[passage as usize * 30 + place as usize * 10 + state]
}

// The number of a digit.
fn number(digit: u8) -> usize
    requires { 48 ≤ digit }
    ensures { result + 48 ≡ digit }
{
    usize::from(digit - b'0')
}

// The state that a mark of ACTIONS stands for: 9 is odd or dead.
fn decide(mark: usize, between: bool) -> usize
    ensures { result ≡ decided mark between }
{
    if mark < 9 {
        mark
    } else if between {
        ODD
    } else {
        DEAD
    }
}

// The state after an action, by the rows of an automaton.
fn next_state(automaton: Automaton, kind: Kind, between: bool, state: usize) -> usize
    requires { state < 9 }
    ensures { result ≡ state_code (automaton_by automaton between (sample_action kind) (state_of state)) }
{
    decide(number(action_digit(kind, automaton, state)), between)
}

// The kind of an action as it is seen from a side: from the back TOP for BOTTOM and BOTTOM for TOP.
pub fn seen_kind(side: Side, kind: Kind) -> Kind
    ensures { result ≡ kind_from side kind }
{
    match (side, kind) {
        (Side::BackSide, Kind::Bottom) => Kind::Top,
        (Side::BackSide, Kind::Top) => Kind::Bottom,
        _ => kind,
    }
}

// A passage as it is seen from a side: from the back 20 for 02 and 02 for 20.
pub fn seen_passage(side: Side, passage: Passage) -> Passage
    ensures { result ≡ passage_from side passage }
{
    match (side, passage) {
        (Side::BackSide, Passage::P02) => Passage::P20,
        (Side::BackSide, Passage::P20) => Passage::P02,
        _ => passage,
    }
}
