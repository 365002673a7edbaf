// What the programs at the desk take (document 02, Q-4 and Q-7).
#![tactic(auto)]

ghost use Rattle.std.specs.Prelude.{◌≡◌};
ghost use Rattle.desk.specs.Desk.{desk_open};

use pcm::{Error, PcmFormat};
use pipeline::Pipeline;

// The bytes of a file that they take.
pub const MAX_FILE: usize = 1048576;

// The chain of a recipe that is within the limit.
#[tactic(auto, unfolding(crate::specs::Desk::desk_open))]
pub fn open(format: PcmFormat, recipe: &[u8]) -> Result<Pipeline, Error>
    ensures { result ≡ desk_open format recipe.now }
{
    if recipe.len() > MAX_FILE {
        return Err(Error::TooLong);
    }
    Pipeline::open(format, recipe)
}
