// Refusals: why a call sends back what it was handed, each with the paper's number.
ghost use Rattle.std.specs.Prelude.{◌≡◌};
ghost use Rattle.reuse.specs.Refusals.{refusal_number, Numbered};

// A refusal, by what it refuses.
#[derive(Clone, Copy, Debug, PartialEq, Eq)]
pub enum Refusal {
    // a text line with which no text of the rule can go on, or an end too early
    FaultyLine = 1,
    // a number, a name or a place out of its range
    OutOfRange = 2,
    // the segs of a plan do not add up to the log
    WrongTotal = 3,
    // a plan text with too many bytes, joins open together, or parts of one join
    PlanTooLarge = 4,
    // words that are not a well-formed summary
    NotASummary = 5,
    // fewer words or bytes lent than the answer needs
    NoRoom = 6,
    // words that are not a sound session or watch
    Unsound = 7,
    // more reads than the limit would result
    TooManyReads = 8,
    // more different extents than the limit would result
    TooManyExtents = 9,
    // the least shares of a store's customers add up to more than the store
    StoreTooSmall = 10,
    // a return to a name that is not set
    NameNotSet = 11,
    // a number of misses allowed that is below the cold reads
    BelowCold = 12,
}

// A number that no refusal has.
#[derive(Clone, Copy, Debug, PartialEq, Eq)]
pub struct UnknownNumber(pub u32);

impl From<Refusal> for u32 {
    ghost from_gives = { λ refusal number. number ≡ refusal_number refusal };

    fn from(refusal: Refusal) -> u32 {
        refusal as u32
    }
}

impl TryFrom<u32> for Refusal {
    type Error = UnknownNumber;

    ghost try_from_gives = { Numbered };

    fn try_from(number: u32) -> Result<Self, UnknownNumber> {
        match number {
            1 => Ok(Refusal::FaultyLine),
            2 => Ok(Refusal::OutOfRange),
            3 => Ok(Refusal::WrongTotal),
            4 => Ok(Refusal::PlanTooLarge),
            5 => Ok(Refusal::NotASummary),
            6 => Ok(Refusal::NoRoom),
            7 => Ok(Refusal::Unsound),
            8 => Ok(Refusal::TooManyReads),
            9 => Ok(Refusal::TooManyExtents),
            10 => Ok(Refusal::StoreTooSmall),
            11 => Ok(Refusal::NameNotSet),
            12 => Ok(Refusal::BelowCold),
            _ => Err(UnknownNumber(number)),
        }
    }
}
