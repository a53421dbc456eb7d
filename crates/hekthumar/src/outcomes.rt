// What an access without a value answers: its number, and how far it went.
ghost use Rattle.std.specs.Prelude.{◌≡◌, ◌<◌};
ghost use Rattle.layout.specs.Page.{page_size};
ghost use Rattle.translate.specs.Place.{distance_of_answer};
ghost use Rattle.hekthumar.specs.Answers.{outcome_answer};

use refusal::{DONE, Refusal};

// The number of an access without a value; where a byte is not present, the distance to it.
#[repr(C)]
#[derive(Clone, Copy)]
pub struct OutcomeAnswer {
    pub distance: u16,
    pub number: u8,
}

// What an access without a value answers. A distance is below the length of an access, so it fits; `From` could not ask that.
pub fn outcome_answer(answer: Result<(), Refusal>) -> OutcomeAnswer
    requires { distance_of_answer answer < page_size }
    ensures { result ≡ outcome_answer answer }
{
    match answer {
        Ok(()) => OutcomeAnswer {
            distance: 0,
            number: DONE,
        },
        Err(refusal) => OutcomeAnswer {
            distance: refusal.distance() as u16,
            number: refusal.number(),
        },
    }
}
