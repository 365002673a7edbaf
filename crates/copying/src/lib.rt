// Bytes to the front of a buffer.
#![tactic(auto)]

ghost use Rattle.std.specs.Prelude.{◌≡◌, ◌≤◌, length};
ghost use Rattle.pcm.specs.Frames.{written};

// The bytes of input at the front of out.
#[tactic(auto, unfolding(pcm::specs::Frames::written))]
pub fn copy_front(input: &[u8], out: &mut [u8])
    requires { length input.now ≤ length out.old }
    ensures { out.new ≡ written input.now out.old }
{
    out[..input.len()].copy_from_slice(input);
}
