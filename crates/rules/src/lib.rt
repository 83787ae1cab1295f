// The values that code and definitions share. What they mean is said in specs/.
#![tactic(auto)]

ghost use Rattle.rules.specs.Plans.{kind_of};
ghost use Rattle.rules.specs.Refusals.{number_of};
ghost use Rattle.rules.specs.Sheet.{letter_of};
ghost use Rattle.rules.specs.Store.{side_of};
ghost use Rattle.std.specs.Prelude.{◌≡◌};

// The side of the store at which the depot lies ("FRONT or BACK"): at the front or at the back crossing of its aisle.
#[derive(Clone, Copy, PartialEq, Eq)]
pub enum Side {
    FrontSide,
    BackSide,
}

// The posts ("uprights") between the cells, and the depot's side, as the lines behind the first of the L section say them: no line
// (`L 1`); the line `k u`, a post after every k cells, each u wide (`L 2`); or this line and the side's (`L 3`).
#[derive(Clone, Copy)]
pub enum Posts {
    NoPosts,
    Every(usize, usize),
    Sided(usize, usize, Side),
}

// The store: document 01's m, C, f, p, b, w and d, in the order of the job file, and its posts and the depot's side.
#[derive(Clone, Copy)]
pub struct Layout {
    pub aisles: usize,
    pub cells: usize,
    pub front: usize,
    pub pitch: usize,
    pub back: usize,
    pub width: usize,
    pub depot: usize,
    pub posts: Posts,
}

impl Layout {
    // The side of the store at which the depot lies.
    pub fn side(self) -> Side
        ensures { result ≡ side_of self }
    {
        match self.posts {
            Posts::NoPosts => Side::FrontSide,
            Posts::Every(_, _) => Side::FrontSide,
            Posts::Sided(_, _, side) => side,
        }
    }
}

// The routing policies.
#[derive(Clone, Copy, PartialEq, Eq)]
pub enum Policy {
    Exact,
    Return,
    Traversal,
    Midpoint,
    Composite,
    Largest,
}

// An end of the row of entered aisles.
#[derive(Clone, Copy, PartialEq, Eq)]
pub enum End {
    Leftmost,
    Rightmost,
}

// A stock record: a cell, the article in it and how much of it.
#[derive(Clone, Copy, Default)]
pub struct StockRecord {
    pub aisle: usize,
    pub cell: usize,
    pub article: usize,
    pub quantity: usize,
}

// A line of the H section ("window"): an aisle, and the minutes of the day from which it is open and before which.
#[derive(Clone, Copy, Default)]
pub struct Window {
    pub aisle: u16,
    pub from: u16,
    pub to: u16,
}

// An order line ("list line"): an article and how much of it is ordered.
#[derive(Clone, Copy, Default)]
pub struct OrderLine {
    pub article: usize,
    pub quantity: usize,
}

// What a plan does in one aisle.
#[derive(Clone, Copy)]
pub enum Action {
    Void,
    Bottom(usize),
    Top(usize),
    Gap(usize, usize),
    Once,
    Twice,
}

impl Action {
    // The kind of an action.
    pub fn kind(self) -> Kind
        ensures { result ≡ kind_of self }
    {
        match self {
            Action::Void => Kind::Void,
            Action::Bottom(_) => Kind::Bottom,
            Action::Top(_) => Kind::Top,
            Action::Gap(_, _) => Kind::Gap,
            Action::Once => Kind::Once,
            Action::Twice => Kind::Twice,
        }
    }
}

// The kinds of actions, in document 01's order: VOID, BOTTOM, TOP, GAP, ONCE, TWICE.
#[derive(Clone, Copy, PartialEq, Eq)]
pub enum Kind {
    Void,
    Bottom,
    Top,
    Gap,
    Once,
    Twice,
}

// How often a plan treads the back and the front cross-aisle between two neighbouring aisles.
#[derive(Clone, Copy, PartialEq, Eq)]
pub enum Passage {
    P00,
    P02,
    P11,
    P20,
    P22,
}

// A step of a walk ("B, F, L, R"), in the order of the alphabet.
#[derive(Clone, Copy, PartialEq, Eq, Default)]
pub enum Direction {
    #[default]
    Back,
    Front,
    Left,
    Right,
}

impl Direction {
    // The letter of a step.
    pub fn letter(self) -> u8
        ensures { result ≡ letter_of self }
    {
        match self {
            Direction::Back => b'B',
            Direction::Front => b'F',
            Direction::Left => b'L',
            Direction::Right => b'R',
        }
    }
}

// Equal steps run together: a direction and a step count.
#[derive(Clone, Copy, Default)]
pub struct Run {
    pub direction: Direction,
    pub steps: usize,
}

// What is taken from one cell.
#[derive(Clone, Copy, Default)]
pub struct Pick {
    pub aisle: usize,
    pub cell: usize,
    pub article: usize,
    pub quantity: usize,
}

// The causes of a refusal, in the order of document 01's table; among them that of request #106, behind them that of #103.
#[derive(Clone, Copy, PartialEq, Eq)]
pub enum Refusal {
    WorkArea,
    NotAJobFile,
    LayoutBounds,
    StockBounds,
    CellTwice,
    HoursBounds,
    ListBounds,
    ArticleTwice,
    TooHeavy,
    ShortOfStock,
    SheetSpace,
    PageSpace,
}

impl From<Refusal> for u32 {
    ghost from_gives = { λ cause n. n ≡ number_of cause };

    // The number of a refusal, as the table has it.
    fn from(cause: Refusal) -> u32 {
        match cause {
            Refusal::WorkArea => 10,
            Refusal::NotAJobFile => 1,
            Refusal::LayoutBounds => 2,
            Refusal::StockBounds => 3,
            Refusal::CellTwice => 4,
            Refusal::HoursBounds => 12,
            Refusal::ListBounds => 5,
            Refusal::ArticleTwice => 6,
            Refusal::TooHeavy => 7,
            Refusal::ShortOfStock => 8,
            Refusal::SheetSpace => 9,
            Refusal::PageSpace => 11,
        }
    }
}

// What a served page call answers: the byte counts of the sheet and of the page.
#[derive(Clone, Copy)]
pub struct PageReply {
    pub sheet: usize,
    pub page: usize,
}
