// Document 01, "Elements": the element, the set in memory, and the limits of its table.
ghost use Rattle.model.specs.FunctionContracts.{EmptySetSays, CountedSays, FirstDueSays};

pub const MOST_PERIOD: u32 = 16_777_216;

pub const MOST_OFFSET: u32 = 16_777_216;

pub const MOST_DEADLINE: u32 = 16_777_216;

pub const MOST_COST: u32 = 16_777_216;

pub const PLACES: usize = 128;

pub const MOST_HYPERPERIOD: u64 = 1_073_741_824;

pub const MOST_K: u32 = 255;

// A single event comes once. Once stands first: what a table is read as past its end is then the filler.
#[derive(Clone, Copy)]
pub enum Period {
    Once,
    Every(u32),
}

#[derive(Clone, Copy)]
pub struct Element {
    pub period: Period,
    pub offset: u32,
    pub deadline: u32,
    pub cost: u32,
}

#[derive(Clone, Copy)]
pub struct TaskSet {
    pub count: usize,
    pub table: [Element; PLACES],
}

impl TaskSet {
    // The counted places, in table order; all of them where the count is above their number.
    pub fn counted(&self) -> &[Element]
        ensures { CountedSays self.entry result }
    {
        if PLACES < self.count {
            &self.table
        } else {
            &self.table[..self.count]
        }
    }
}

// What stands past the count: a single event of all zeros. Since it is a constant, a table of it is cleared where it lies.
pub const FILLER: Element = Element {
    period: Period::Once,
    offset: 0,
    deadline: 0,
    cost: 0,
};

pub fn empty_set() -> TaskSet
    ensures { EmptySetSays result }
{
    TaskSet {
        count: 0,
        table: [FILLER; PLACES],
    }
}

// Document 01's f: the length at which an element is due first.
pub fn first_due(e: Element) -> u64
    ensures { FirstDueSays e result }
{
    u64::from(e.offset) + u64::from(e.deadline)
}
