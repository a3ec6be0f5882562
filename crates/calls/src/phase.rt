ghost use Rattle.std.specs.Prelude.{◌≡◌};
ghost use Rattle.calls.specs.Phases.{phase_number, may_open, may_sample, may_turn, may_close, may_read};

// Where a sounder stands.
#[derive(Clone, Copy, PartialEq, Eq, Debug)]
pub enum Phase {
    Idle,
    FirstRecord,
    SecondRecord,
    Complete,
}

// Five questions, one for each row of the table of phases, and no function of the phases that allow a call.
impl Phase {
    // The place of a refusal. By name, since a From for u8 would not say which number it is.
    pub fn number(self) -> u8
        ensures { result ≡ phase_number self }
    {
        match self {
            Phase::Idle => 0,
            Phase::FirstRecord => 1,
            Phase::SecondRecord => 2,
            Phase::Complete => 3,
        }
    }

    pub fn may_open(self) -> bool
        ensures { result ≡ may_open self }
    {
        matches!(self, Phase::Idle | Phase::Complete)
    }

    pub fn may_sample(self) -> bool
        ensures { result ≡ may_sample self }
    {
        matches!(self, Phase::FirstRecord | Phase::SecondRecord)
    }

    pub fn may_turn(self) -> bool
        ensures { result ≡ may_turn self }
    {
        self == Phase::FirstRecord
    }

    pub fn may_close(self) -> bool
        ensures { result ≡ may_close self }
    {
        self == Phase::SecondRecord
    }

    // Sums and taps are there to be read.
    pub fn may_read(self) -> bool
        ensures { result ≡ may_read self }
    {
        self == Phase::Complete
    }
}
