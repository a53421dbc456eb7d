// The code of a region in a call: the use byte of its frames.
ghost use Rattle.std.specs.Prelude.{◌≡◌};
ghost use Rattle.control.specs.Codes.{region_coded};

use super::shadow::Region;
use layout::control::{HEAP, STACK};
use refusal::Refusal;

// The region that a code names. Any other code is a bad request.
impl TryFrom<u8> for Region {
    type Error = Refusal;

    ghost try_from_gives = { λ code region. region ≡ region_coded code };

    #[tactic(auto, unfolding(crate::specs::Codes::region_coded))]
    fn try_from(code: u8) -> Result<Self, Refusal> {
        match code {
            STACK => Ok(Region::Stack),
            HEAP => Ok(Region::Heap),
            _ => Err(Refusal::BadRequest),
        }
    }
}
