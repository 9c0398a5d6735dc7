// The answer of an analysis, and document 01's numbers for each case. specs/Answers.antt defines them.
ghost use Rattle.std.specs.Prelude.{◌≡◌};
ghost use Rattle.model.specs.FunctionContracts.{NumberOfSays, ToldSays, ValuesOfSays, NumbersOfSays};

// Why something is turned away: the rows of document 01's table.
#[derive(Clone, Copy)]
pub enum Reason {
    UnknownKind,
    RecordCut,
    TooManyElements,
    PeriodOutOfRange,
    OffsetOutOfRange,
    DeadlineOutOfRange,
    CostOutOfRange,
    HyperperiodAboveLimit,
    KOutOfRange,
    BufferTooShort,
}

// What is turned away, and where.
#[derive(Clone, Copy)]
pub struct Refusal {
    pub reason: Reason,
    pub place: usize,
}

// What a refusal tells: its number, and where.
#[derive(Clone, Copy)]
pub struct Told {
    pub refusal: u32,
    pub place: usize,
}

#[derive(Clone, Copy)]
pub enum Verdict {
    Passes {
        count: u64,
    },
    Overrun {
        interval: u64,
        demand: u64,
        count: u64,
    },
    LoadAboveOne {
        interval: u64,
        demand: u64,
    },
    NotShown {
        interval: u64,
        demand: u64,
        count: u64,
    },
}

#[derive(Clone, Copy)]
pub struct Values {
    pub verdict: u64,
    pub interval: u64,
    pub demand: u64,
    pub count: u64,
}

// A refusal's number and place with zeros after them, or a verdict's values with zeros before them.
#[derive(Clone, Copy)]
pub struct Numbers {
    pub refusal: u32,
    pub place: usize,
    pub verdict: u64,
    pub interval: u64,
    pub demand: u64,
    pub count: u64,
}

fn four(verdict: u64, interval: u64, demand: u64, count: u64) -> Values
    ensures { result ≡ record { verdict = verdict; interval = interval; demand = demand; count = count } }
{
    Values {
        verdict,
        interval,
        demand,
        count,
    }
}

// Document 01's number of each row.
impl From<Reason> for u32 {
    ghost from_gives = { NumberOfSays };

    fn from(reason: Reason) -> u32 {
        match reason {
            Reason::UnknownKind => 1,
            Reason::RecordCut => 2,
            Reason::TooManyElements => 3,
            Reason::PeriodOutOfRange => 4,
            Reason::OffsetOutOfRange => 5,
            Reason::DeadlineOutOfRange => 6,
            Reason::CostOutOfRange => 7,
            Reason::HyperperiodAboveLimit => 8,
            Reason::KOutOfRange => 9,
            Reason::BufferTooShort => 10,
        }
    }
}

impl From<Refusal> for Told {
    ghost from_gives = { ToldSays };

    fn from(r: Refusal) -> Told {
        let Refusal { reason, place } = r;
        Told {
            refusal: u32::from(reason),
            place,
        }
    }
}

impl From<Verdict> for Values {
    ghost from_gives = { ValuesOfSays };

    fn from(verdict: Verdict) -> Values {
        match verdict {
            Verdict::Passes { count } => four(0, 0, 0, count),
            Verdict::Overrun {
                interval,
                demand,
                count,
            } => four(1, interval, demand, count),
            Verdict::LoadAboveOne { interval, demand } => four(2, interval, demand, 0),
            Verdict::NotShown {
                interval,
                demand,
                count,
            } => four(3, interval, demand, count),
        }
    }
}

impl From<Result<Verdict, Refusal>> for Numbers {
    ghost from_gives = { NumbersOfSays };

    fn from(answer: Result<Verdict, Refusal>) -> Numbers {
        match answer {
            Err(r) => Numbers {
                refusal: u32::from(r.reason),
                place: r.place,
                verdict: 0,
                interval: 0,
                demand: 0,
                count: 0,
            },
            Ok(verdict) => {
                let v = Values::from(verdict);
                Numbers {
                    refusal: 0,
                    place: 0,
                    verdict: v.verdict,
                    interval: v.interval,
                    demand: v.demand,
                    count: v.count,
                }
            }
        }
    }
}
