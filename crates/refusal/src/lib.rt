// Why a call is refused, the number that it gives back, and how far an access went.

#![tactic(auto)]

ghost use Rattle.std.specs.Prelude.{◌≡◌};
ghost use Rattle.refusal.specs.Numbers.{number_of, distance_of};
ghost use Rattle.refusal.specs.Checks.{check_number};

// A case for each meaning that has a number. A test or a call that may refuse answers a `Result` with this error.
#[derive(Clone, Copy, Debug, PartialEq, Eq)]
pub enum Refusal {
    // a buffer, header, account entry or control block is not valid
    Invalid,
    // unknown kind or wrong length
    BadRequest,
    // set upper bits, or an offset of 2^24 or more
    BadAddress,
    // no such segment, account or program
    NoSegment,
    Misaligned,
    // crosses a page boundary
    Crossing,
    NotPermitted,
    // too few free frames
    NoFrame,
    // call at the deepest invocation, or return from the first
    DepthLimit,
    // a region above its most pages
    TooManyPages,
    ShortOutput,
    // a change list that is not well formed
    BadList,
    // a byte that is not present, so many bytes behind the first
    Absent(usize),
    // a discriminant that is neither 0 nor 1
    BadRecord,
}

// The number given back where nothing is refused.
pub const DONE: u8 = 0;

impl Refusal {
    // The number of a refusal.
    pub fn number(self) -> u8
        ensures { result ≡ number_of self }
    {
        match self {
            Refusal::Invalid => 1,
            Refusal::BadRequest => 2,
            Refusal::BadAddress => 3,
            Refusal::NoSegment => 4,
            Refusal::Misaligned => 5,
            Refusal::Crossing => 6,
            Refusal::NotPermitted => 7,
            Refusal::NoFrame => 8,
            Refusal::DepthLimit => 9,
            Refusal::TooManyPages => 10,
            Refusal::ShortOutput => 11,
            Refusal::BadList => 12,
            Refusal::Absent(_) => 13,
            Refusal::BadRecord => 14,
        }
    }

    // How many bytes an access went before the first that is not present; 0 where another thing was wrong.
    pub fn distance(self) -> usize
        ensures { result ≡ distance_of self }
    {
        match self {
            Refusal::Absent(n) => n,
            _ => 0,
        }
    }
}

// The number of a call that gives nothing but its number.
pub fn number(answer: Result<(), Refusal>) -> u8
    ensures { result ≡ check_number answer }
{
    match answer {
        Ok(()) => DONE,
        Err(refusal) => refusal.number(),
    }
}
