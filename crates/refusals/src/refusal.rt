// Why a call is refused. Documents 01 and 02 give each refusal its number, which is the variant's.
ghost use Rattle.std.specs.Prelude.{◌≡◌};
ghost use Rattle.refusals.specs.Refusals.{unless};
ghost use Rattle.refusals.specs.Refusal.{number_of, number_in};

#[derive(Clone, Copy, Debug, PartialEq, Eq)]
pub enum Refusal {
    RowsLength = 1,
    RequestNumber = 2,
    PreviousStation = 3,
    CurrentBounds = 4,
    RowNumber = 5,
    RowImpossible = 6,
    ProjectionNotFinite = 7,
    ProjectionEmpty = 8,
    MiddleFails = 9,
    NotEights = 10,
    StationCount = 11,
    SpeedCount = 12,
    StationNotFinite = 13,
    SpeedNotFinite = 14,
    StationsNotIncreasing = 15,
    StartNotFinite = 16,
    SpeedNegative = 17,
    Standstill = 18,
    ComputedTimeNotFinite = 19,
    TimeCount = 20,
    TimeNotFinite = 21,
    TimesNotIncreasing = 22,
    StepNotFinite = 23,
    StepNotPositive = 24,
    NoSamples = 25,
    SampleNotFinite = 26,
    SamplesNotIncreasing = 27,
    TooManySamples = 28,
    OutputTooShort = 29,
    FileTooLong = 40,
    FileNumber = 41,
    KindUnknown = 42,
    KindNotRising = 43,
    PayloadBeyondFile = 44,
    PayloadForm = 45,
    KindAbsent = 46,
    WalkFull = 61,
}

impl Refusal {
    // What the C entries return.
    pub fn number(self) -> u64
        ensures { result ≡ number_of self }
    {
        self as u64
    }

    // A test of a chain: what follows it is reached where it passes.
    pub fn unless(self, ok: bool) -> Result<(), Refusal>
        ensures { number_in result ≡ unless ok (number_of self) }
    {
        if ok { Ok(()) } else { Err(self) }
    }
}

// Of an answer: 0 where it is none.
pub fn number_in<T>(answer: &Result<T, Refusal>) -> u64
    ensures { result ≡ number_in answer.now }
{
    match answer {
        Ok(_) => 0,
        Err(refusal) => refusal.number(),
    }
}
