// The rows of the refusal table (REFERENCE, section 6.2), with their numbers and places.
ghost use Rattle.std.specs.Prelude.{◌≡◌};
ghost use Rattle.image.specs.Refusals.{number_of, place_of};

use std::error::Error;
use std::fmt;

// A row of the table. Where it names a place, its variant holds it.
// specs/Refusals.antt gives each variant the row's number and place.
#[derive(Clone, Copy, Debug, PartialEq, Eq)]
pub enum Refusal {
    ImageTooShort,
    WrongEdition,
    SizeOutOfRange,
    WrongField,
    WrongLength,
    ArcOutOfRange(u32),
    ArcToItself(u32),
    ArcNotRising(u32),
    CostTooLarge(u32),
    WrongEnds,
    WrongColumn,
    WrongPathCount,
    SliceTooShort,
    NotAPath(u32),
    NoPath,
    WrongRecordArc(u32),
    WrongRecordColumn(u32),
    TooManyArcs(u32),
    WrongEventArc(u32),
}

impl Refusal {
    // The number of its row.
    pub fn number(self) -> u32
        ensures { result ≡ number_of self }
    {
        match self {
            Refusal::ImageTooShort => 1,
            Refusal::WrongEdition => 2,
            Refusal::SizeOutOfRange => 3,
            Refusal::WrongField => 4,
            Refusal::WrongLength => 5,
            Refusal::ArcOutOfRange(_) => 6,
            Refusal::ArcToItself(_) => 7,
            Refusal::ArcNotRising(_) => 8,
            Refusal::CostTooLarge(_) => 9,
            Refusal::WrongEnds => 10,
            Refusal::WrongColumn => 11,
            Refusal::WrongPathCount => 12,
            Refusal::SliceTooShort => 13,
            Refusal::NotAPath(_) => 14,
            Refusal::NoPath => 15,
            Refusal::WrongRecordArc(_) => 17,
            Refusal::WrongRecordColumn(_) => 18,
            Refusal::TooManyArcs(_) => 19,
            Refusal::WrongEventArc(_) => 20,
        }
    }

    // The place that it names, or 0: a number, since the C interface and the sheet give one for each refusal (REFERENCE,
    // section 6.2, and docs/DECISIONS.md); whether it names one is told by the variant.
    pub fn place(self) -> u32
        ensures { result ≡ place_of self }
    {
        match self {
            Refusal::ArcOutOfRange(place)
            | Refusal::ArcToItself(place)
            | Refusal::ArcNotRising(place)
            | Refusal::CostTooLarge(place)
            | Refusal::NotAPath(place)
            | Refusal::WrongRecordArc(place)
            | Refusal::WrongRecordColumn(place)
            | Refusal::TooManyArcs(place)
            | Refusal::WrongEventArc(place) => place,
            _ => 0,
        }
    }
}

// As the sheet prints it.
impl fmt::Display for Refusal {
    fn fmt<W: fmt::Write>(&self, f: &mut fmt::Formatter<W>) -> fmt::Result {
        write!(f, "refused {} at {}", self.number(), self.place())
    }
}

impl Error for Refusal {}
