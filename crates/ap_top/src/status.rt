// How a run ends.
ghost use Rattle.std.specs.Prelude.{◌≡◌, ◌||◌};
ghost use Rattle.ap_top.specs.Status.{number_of, status_of, both};

/// The status of a run.
#[derive(Clone, Copy, Debug, PartialEq, Eq)]
pub enum Status {
    /// None of the others.
    Done,
    /// The budget of a query was spent, and no query was refused.
    BudgetSpent,
    /// The words are no command line.
    Usage,
    /// The file could not be read.
    FileFault,
    /// The file holds no program.
    ProgramRefused,
    /// A query was refused.
    QueryRefused,
    /// The sink failed. Nothing was put after that.
    SinkFault,
    /// The source failed.
    SourceFault,
    /// Memory was wanting.
    NoMemory,
    /// The source gave more bytes than the limit.
    QueriesTooLong,
    /// The entry is no pattern of a predicate.
    EntryRefused,
}

impl Status {
    /// The number that the program ends with.
    pub fn number(self) -> u8
        ensures { result ≡ number_of self }
    {
        match self {
            Status::Done => 0,
            Status::BudgetSpent => 1,
            Status::Usage => 2,
            Status::FileFault => 3,
            Status::ProgramRefused => 4,
            Status::QueryRefused => 5,
            Status::SinkFault => 6,
            Status::SourceFault => 7,
            Status::NoMemory => 8,
            Status::QueriesTooLong => 9,
            Status::EntryRefused => 10,
        }
    }
}

/// What the queries of a source came to.
#[derive(Clone, Copy, Debug, PartialEq, Eq)]
pub struct Tally {
    /// Whether the budget of one was spent.
    pub spent: bool,
    /// Whether one was refused.
    pub refused: bool,
}

impl Tally {
    /// Of queries of which some came to this and the others to that.
    pub fn and(self, other: Tally) -> Tally
        ensures { result ≡ both self other }
    {
        Tally {
            spent: self.spent | other.spent,
            refused: self.refused | other.refused,
        }
    }

    /// The status of a run whose source was read to its end.
    pub fn status(self) -> Status
        ensures { result ≡ status_of self }
    {
        if self.refused {
            Status::QueryRefused
        } else if self.spent {
            Status::BudgetSpent
        } else {
            Status::Done
        }
    }
}
