// The values that the code crates hand to each other, where the definitions have lists: lists of fixed room, and arrays with a count.
#![tactic(auto)]

mod fixed_list;

ghost use Rattle.std.specs.Prelude.{◌≡◌, ◌≤◌, take};

pub use crate::fixed_list::FixedList;
use rules::{Action, Layout, OrderLine, Passage, Pick, Policy, Run, StockRecord, Window};

// What the sections M and H say: the minute of the day, and the windows; the first `count` of them count. (The count may be more than
// there is room for: a job file that says so is refused after others are tried, so that it is no list.)
#[derive(Clone, Copy)]
pub struct Clock {
    pub minute: usize,
    pub count: usize,
    pub windows: [Window; 64],
}

// A job: the first `records` of its stock records and the first `orders` of its order lines count. It has a clock where the sections
// M and H stand in its file. (The two numbers may be more than there is room for, as the count of windows.)
#[derive(Clone, Copy)]
pub struct JobValue {
    pub layout: Layout,
    pub policy: Policy,
    pub records: usize,
    pub stock: [StockRecord; 384],
    pub orders: usize,
    pub lines: [OrderLine; 8],
    pub hours: Option<Clock>,
}

// What each cell of the store holds for the order lines, at (aisle - 1) * 24 + (cell - 1): the line of its article, by number from 0,
// if it is on one, and the quantity of its record; cells of shut aisles hold nothing. And which aisles are open, at aisle - 1.
#[derive(Clone, Copy)]
pub struct Shelf {
    pub line: [Option<usize>; 384],
    pub quantity: [usize; 384],
    pub open: [bool; 16],
}

// One aisle of a plan: its action and the passage behind it.
#[derive(Clone, Copy)]
pub struct Stage {
    pub action: Action,
    pub passage: Passage,
}

// A plan: the first `aisles` stages count, at most all of them; the passage of the last of them does not. (It is no list of fixed room,
// since its two fields are read by name in many crates.)
#[derive(Clone, Copy)]
pub struct PlanValue {
    pub aisles: usize,
    pub stages: [Stage; 16],
    pub ghost fits: { aisles ≤ 16 },
}

impl PlanValue {
    // The stages that count.
    pub fn as_slice(&self) -> &[Stage]
        ensures { result.now ≡ take self.now.aisles self.now.stages }
    {
        &self.stages[..self.aisles]
    }
}

// The picks of a plan: at most as many as a store has cells.
pub type PickList = FixedList<Pick, 384>;

// The runs of a walk: at most 860.
pub type RunList = FixedList<Run, 860>;

// The plan of a job and its length.
#[derive(Clone, Copy)]
pub struct Routed {
    pub length: usize,
    pub plan: PlanValue,
}
