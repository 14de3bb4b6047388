// The plan in memory: the size record, the refusals, and the test for sound tables.
#![tactic(auto)]

ghost use Rattle.std.specs.Prelude.{◌≡◌};
ghost use Rattle.tables.specs.Meaning.{sized, refusal_of};
ghost use Rattle.model.specs.Refusal.{number};

mod checks;
pub mod entries;
pub mod lengths;
pub mod list_table;
pub mod lists;
pub mod rising;
pub mod rows;
pub mod sound_plan;
pub mod spans;
pub mod tags;

// The numbers of a plan: n states, m commands, t outcome entries, and the start.
#[derive(Clone, Copy, Debug, PartialEq, Eq)]
pub struct Size {
    pub n: usize,
    pub m: usize,
    pub t: usize,
    pub start: usize,
}

impl Size {
    pub const STATES: usize = 1024;

    pub const COMMANDS: usize = 4096;

    pub const OUTCOMES: usize = 16384;

    // The bytes of the longest file.
    pub const FILE: usize = 10 + 8 * Size::STATES + 3 * Size::COMMANDS + 2 * Size::OUTCOMES;

    // Ruled out: m and t exchanged, and a start of its own choosing.
    pub fn new(n: usize, m: usize, t: usize, start: usize) -> Size
        ensures made { result ≡ sized n m t start }
    {
        Size { n, m, t, start }
    }
}

// A state's row.
#[derive(Clone, Copy, Debug, PartialEq, Eq)]
pub struct Row {
    pub kind: u16,
    pub first: u16,
    pub practice: u16,
}

impl Row {
    // What a table is made of before it is filled.
    pub const BLANK: Row = Row {
        kind: 0,
        first: 0,
        practice: 0,
    };
}

// A plan as it is lent: its size record, and its tables, which may be of any length and have anything in them.
#[derive(Clone, Copy)]
pub struct Plan<'a> {
    pub size: Size,
    pub rows: &'a [Row],
    pub firsts: &'a [u16],
    pub outcomes: &'a [u16],
}

// The refusals, in the order of their numbers (rules E1 to E11, E22 and E23). No call gives the last five yet (rule E21).
#[derive(Clone, Copy, Debug, PartialEq, Eq)]
pub enum Refusal {
    Cut = 1,
    Surplus = 2,
    Tag = 3,
    Length = 4,
    Beyond = 5,
    Unsorted = 6,
    Idle = 7,
    Limit = 8,
    Cramped = 9,
    Unsound = 10,
    Stranger = 11,
    Moves = 12,
    Seconds = 13,
    Doubtful = 14,
    Departures = 15,
    Chambers = 16,
    Report = 17,
    Grant = 18,
}

// The number of a refusal. Ruled out: one number for two refusals, and a number that is not the specification's.
impl From<Refusal> for u32 {
    ghost from_gives = { λ r x. x ≡ number (refusal_of r) };

    fn from(r: Refusal) -> u32
        ensures numbered { result ≡ number (refusal_of r) }
    {
        r as u32
    }
}
