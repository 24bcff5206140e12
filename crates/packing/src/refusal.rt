//! The reasons to refuse a load.
ghost use Rattle.std.specs.Prelude.{◌≡◌};
ghost use Rattle.packing.specs.Refusals.{row};

/// Why a load is refused.
#[derive(Clone, Copy, PartialEq, Eq, Debug)]
pub enum Refusal {
    /// cores not 1 to 16
    BadCores,
    /// unit not 1 to 1,000
    BadUnit,
    /// no task, or more than 64
    BadTaskCount,
    /// this task, the first such, has rate 0 or a rate above the unit
    BadRate(usize),
    /// the rates sum above cores × unit
    Overload,
}

impl Refusal {
    /// The number of its row in the table of refusals.
    pub fn number(self) -> u8
        ensures { result ≡ (row self).number }
    {
        match self {
            Refusal::BadCores => 1,
            Refusal::BadUnit => 2,
            Refusal::BadTaskCount => 4,
            Refusal::BadRate(_) => 5,
            Refusal::Overload => 6,
        }
    }

    /// The task that it names, if it names one.
    pub fn task(self) -> Option<usize>
        ensures { result ≡ (row self).task }
    {
        match self {
            Refusal::BadRate(task) => Some(task),
            _ => None,
        }
    }
}
