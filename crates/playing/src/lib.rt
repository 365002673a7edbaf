// A whole sound through a chain: by blocks of 1,024 frames, the last shorter, ended by the finish call, what comes out gathered (document 02, Q-7).
#![tactic(auto)]

ghost use Rattle.std.specs.Prelude.{◌≡◌, true, ◌≤◌, length, Ok};
ghost use Rattle.pcm.specs.Formats.{format_allowed};
ghost use Rattle.playing.specs.Playing.{play_call};
ghost use Rattle.playing.specs.Steps.{appended};

use pcm::{Error, PcmFormat};
use pipeline::Pipeline;

// The output behind the first n bytes of out, and how many there are then. Where it passes what out holds 10.
fn join(output: &[u8], n: usize, out: &mut [u8]) -> Result<usize, Error>
    requires { n ≤ length out.old }
    ensures { record { gathered = result; out = out.new } ≡ appended n output.now out.old }
{
    if out.len() - n < output.len() {
        return Err(Error::TooLong);
    }
    copying::copy_front(output, &mut out[n..]);
    Ok(n + output.len())
}

// The sound through the chain, what comes out at the front of out.
#[tactic(auto, using(crate::specs::laws::Formats::frame_some))]
pub fn play(
    mut chain: Pipeline,
    format: PcmFormat,
    sound: &[u8],
    a: &mut [u8],
    b: &mut [u8],
    out: &mut [u8],
) -> Result<usize, Error>
    requires { format_allowed format ≡ true }
    ensures { record { gathered = result; a = a.new; b = b.new; out = out.new } ≡ play_call chain format sound.now a.old b.old out.old }
{
    let size = 1024 * format.frame_bytes();
    let mut n = 0;
    for block in sound.chunks(size) {
        let done = block::process(chain, format, 0, block, a, b);
        chain = done.chain;
        n = join(done.answer?.output(a, b), n, out)?;
    }
    let last = finish::finish(chain, a, b);
    join(last.answer?.output(a, b), n, out)
}
