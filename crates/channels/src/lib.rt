// Channel operations: mono to stereo, stereo to mono, and a saturating mix (elements/channels.rs).
#![tactic(auto)]

ghost use Rattle.std.specs.Prelude.{◌≡◌, ◌*◌, ◌/◌, ◌%◌, ◌≤◌, ◌+ℤ◌, length};
ghost use Rattle.pcm.specs.Frames.{written};
ghost use Rattle.pcm.specs.Samples.{decode, outside16};
ghost use Rattle.channels.specs.Channels.{stereo_bytes, mono_bytes, mixed, mixed_bytes, mix_clipped, mix_verdict, mix_answer, after_mix, mix_told, told_of_mixing};

use pcm::Error;

// Number and values of a mix's answer: how many sums were held back, or the refusal's number and the bytes needed; else 0.
#[derive(Clone, Copy)]
pub struct MixTold {
    pub number: u16,
    pub needed: usize,
    pub clipped: usize,
}

impl From<Result<usize, Error>> for MixTold {
    ghost from_gives = { λ answer told. told ≡ mix_told answer };

    // Number and values of each case.
    fn from(answer: Result<usize, Error>) -> MixTold {
        match answer {
            Ok(n) => MixTold {
                number: 0,
                needed: 0,
                clipped: n,
            },
            Err(e) => MixTold {
                number: e.number(),
                needed: e.needed(),
                clipped: 0,
            },
        }
    }
}

// Each mono sample of input on both channels, at the front of out.
// Kept: a loop of its own, by place: as a closure of `write_samples` it took seven times as long.
pub fn mono_to_stereo(input: &[u8], out: &mut [u8])
    requires { (length input.now % 2 ≡ 0) × (length input.now * 2 ≤ length out.old) }
    ensures { out.new ≡ written (stereo_bytes input.now) out.old }
{
    for k in 0..input.len() / 2 {
        let x = pcm::get_i16(input, 2 * k);
        pcm::put_i16(out, 4 * k, x);
        pcm::put_i16(out, 4 * k + 2, x);
    }
}

// Each stereo frame of input as its mean, at the front of out.
pub fn stereo_to_mono(input: &[u8], out: &mut [u8])
    requires { (length input.now % 4 ≡ 0) × (length input.now / 2 ≤ length out.old) }
    ensures { out.new ≡ written (mono_bytes input.now) out.old }
{
    pcm::write_samples(
        out,
        input.len() / 4,
        |k| mean::mean_i16(pcm::get_i16(input, 4 * k), pcm::get_i16(input, 4 * k + 2)),
    );
}

// The sum of two samples, held within the sample range.
fn sum_i16(a: i16, b: i16) -> i16
    ensures { result ≡ mixed a b }
{
    pcm::held16(i32::from(a) + i32::from(b))
}

// The sums of the samples of a and b, at the front of out.
fn mix_block(a: &[u8], b: &[u8], out: &mut [u8])
    requires { (length a.now ≡ length b.now) × (length a.now ≤ length out.old) }
    ensures { out.new ≡ written (mixed_bytes a.now b.now) out.old }
{
    pcm::write_samples(
        out,
        a.len() / 2,
        |k| sum_i16(pcm::get_i16(a, 2 * k), pcm::get_i16(b, 2 * k)),
    );
}

// Is the sum of two samples held back? By the room that b leaves, so that the compiler gets by with 16 bits.
fn sum_outside(a: i16, b: i16) -> bool
    ensures { result ≡ outside16 (a +ℤ b) }
{
    if b < 0 {
        i32::from(a) < -32768 - i32::from(b)
    } else {
        i32::from(a) > 32767 - i32::from(b)
    }
}

// How many sums are held back.
fn mix_clipped(a: &[u8], b: &[u8]) -> usize
    requires { length a.now ≡ length b.now }
    ensures { result ≡ mix_clipped (decode a.now) (decode b.now) }
{
    counting::count_where(
        a.len() / 2,
        |k| sum_outside(pcm::get_i16(a, 2 * k), pcm::get_i16(b, 2 * k)),
    )
}

// Two streams of equal and even length summed to the front of out, saturating: how many sums were held back. A refusal leaves out as it
// was.
#[tactic(auto, unfolding(crate::specs::Channels::mix_answer, crate::specs::Channels::mix_verdict, pcm::specs::Refusals::room_verdict))]
pub fn mix_i16(a: &[u8], b: &[u8], out: &mut [u8]) -> Result<usize, Error>
    ensures value { (result ≡ mix_answer a.now b.now out.old) × (out.new ≡ after_mix result a.now b.now out.old) }
    ensures told { mix_told result ≡ told_of_mixing (mix_verdict a.now b.now out.old) (mix_clipped (decode a.now) (decode b.now)) }
{
    let n = a.len();
    if n != b.len() || n % 2 != 0 {
        return Err(Error::InvalidGeometry);
    }
    pcm::require_room(out, n)?;
    let clipped = mix_clipped(a, b);
    mix_block(a, b, out);
    Ok(clipped)
}
