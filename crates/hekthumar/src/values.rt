// What an access with a value answers.
ghost use Rattle.std.specs.Prelude.{◌≡◌, ◌<◌};
ghost use Rattle.layout.specs.Page.{page_size};
ghost use Rattle.translate.specs.Place.{distance_of_answer};
ghost use Rattle.hekthumar.specs.Answers.{value_answer};

use refusal::{DONE, Refusal};

// A value, or 0 and the number of the refusal; where a byte is not present, the distance to it.
#[repr(C)]
#[derive(Clone, Copy)]
pub struct ValueAnswer {
    pub value: u64,
    pub distance: u16,
    pub number: u8,
}

// A value, and what its access answers.
pub fn value_answer(answer: Result<u64, Refusal>) -> ValueAnswer
    requires { distance_of_answer answer < page_size }
    ensures { result ≡ value_answer answer }
{
    match answer {
        Ok(value) => ValueAnswer {
            value,
            distance: 0,
            number: DONE,
        },
        Err(refusal) => ValueAnswer {
            value: 0,
            distance: refusal.distance() as u16,
            number: refusal.number(),
        },
    }
}
