// Why a call is refused, and the number that each reason has.
#![tactic(auto)]

ghost use Rattle.std.specs.Prelude.{◌≡◌};
ghost use Rattle.refusal.specs.Numbers.{number_of, number, Named};

use std::error::Error;
use std::fmt;

/// Why a call is refused. Each variant is its number, by which a drive knows it; 0 is for what is accepted.
#[derive(Clone, Copy, Debug, PartialEq, Eq)]
pub enum Refusal {
    /// The model is not good, or a new buffer's link count is not 1 to 64.
    InvalidModel = 1,
    /// The base state breaks its rule.
    InvalidBaseState = 2,
    /// A list, an output or a lent table has the wrong length.
    WrongLength = 3,
    /// A finite pose entry is of the wrong kind or fails the unit test.
    InvalidPose = 4,
    /// A position, a speed, an acceleration or a load is not finite.
    NonFiniteInput = 5,
    /// A load's id or link is not the model's.
    InvalidLinkId = 6,
    /// A load sum is not finite.
    NonFiniteLoadSum = 7,
    /// A figure is not finite.
    NumericalFailure = 8,
    /// A byte record breaks its layout.
    InvalidRecord = 9,
    /// There are more than 256 loads.
    TooManyLoads = 10,
    /// A load buffer's two tables disagree.
    CorruptBuffer = 11,
}

/// A number that no refusal has.
#[derive(Clone, Copy, Debug, PartialEq, Eq)]
pub struct UnknownRefusal(pub u8);

impl Refusal {
    /// The refusal's number, 1 to 11.
    pub fn number(self) -> u8
        ensures { result ≡ number_of self }
    {
        self as u8
    }
}

/// The number of an answer: 0 where nothing is refused.
pub fn number(answer: Result<(), Refusal>) -> u8
    ensures { result ≡ number answer }
{
    match answer {
        Ok(()) => 0,
        Err(refusal) => refusal.number(),
    }
}

impl From<Refusal> for u8 {
    ghost from_gives = { λ e n. n ≡ number_of e };

    fn from(refusal: Refusal) -> u8 {
        refusal.number()
    }
}

impl TryFrom<u8> for Refusal {
    type Error = UnknownRefusal;

    ghost try_from_gives = { Named };

    fn try_from(number: u8) -> Result<Self, UnknownRefusal> {
        match number {
            1 => Ok(Refusal::InvalidModel),
            2 => Ok(Refusal::InvalidBaseState),
            3 => Ok(Refusal::WrongLength),
            4 => Ok(Refusal::InvalidPose),
            5 => Ok(Refusal::NonFiniteInput),
            6 => Ok(Refusal::InvalidLinkId),
            7 => Ok(Refusal::NonFiniteLoadSum),
            8 => Ok(Refusal::NumericalFailure),
            9 => Ok(Refusal::InvalidRecord),
            10 => Ok(Refusal::TooManyLoads),
            11 => Ok(Refusal::CorruptBuffer),
            _ => Err(UnknownRefusal(number)),
        }
    }
}

impl fmt::Display for Refusal {
    fn fmt<W: fmt::Write>(&self, f: &mut fmt::Formatter<W>) -> fmt::Result {
        f.write_str(match self {
            Refusal::InvalidModel => "the model is not good",
            Refusal::InvalidBaseState => "the base state breaks its rule",
            Refusal::WrongLength => "a list has the wrong length",
            Refusal::InvalidPose => "a pose does not fit its joint",
            Refusal::NonFiniteInput => "an input is not finite",
            Refusal::InvalidLinkId => "a load is not on a link of the model",
            Refusal::NonFiniteLoadSum => "a load sum is not finite",
            Refusal::NumericalFailure => "a figure is not finite",
            Refusal::InvalidRecord => "a byte record breaks its layout",
            Refusal::TooManyLoads => "there are more than 256 loads",
            Refusal::CorruptBuffer => "a load buffer's tables disagree",
        })
    }
}

impl fmt::Display for UnknownRefusal {
    fn fmt<W: fmt::Write>(&self, f: &mut fmt::Formatter<W>) -> fmt::Result {
        write!(f, "no refusal has the number {}", self.0)
    }
}

impl Error for Refusal {}

impl Error for UnknownRefusal {}
