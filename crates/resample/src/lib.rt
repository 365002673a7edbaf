// The block function of `LinearResampler`: linear interpolation between sample rates with an exact rational phase (resample.rs).
#![tactic(auto)]

ghost use Rattle.std.specs.Prelude.{◌≡◌, suc, ◌+◌, ◌-◌, ◌*◌, ◌/◌, ◌%◌, ◌≤◌, ◌<◌, ◌^◌, [], ◌∷◌, length};
ghost use Rattle.std.specs.List.{splice};
ghost use Rattle.pcm.specs.Frames.{frames_of, bytes_of};
ghost use Rattle.resample.specs.Value.{frac, interpolated};
ghost use Rattle.resample.specs.Neighbours.{sample_in};
ghost use Rattle.resample.specs.Resample.{newest, padded, outputs_from, carried_outputs, carried_state, resampled, state_after};
ghost use Rattle.resample.specs.Place.{Parts, At, Sum};
ghost use Rattle.resample.specs.Stage.{Whole, frame_between, Ready, Looped, Processed};

use rates::{LinearResampler, ResamplerState};

// The frames that a block brought, and the state after it.
#[derive(Clone, Copy)]
pub struct Resampled {
    pub frames: usize,
    pub state: ResamplerState,
}

// 1 in 2^32nds, and half of it.
const ONE: u64 = 1 << 32;

const HALF: i64 = 1 << 31;

// rem / out_r in 2^32nds.
fn frac_q32(rem: u64, out_r: u64) -> u64
    requires { (rem < out_r) × (out_r ≤ 384000) }
    ensures { result ≡ frac out_r rem }
{
    rem * ONE / out_r
}

// num / out_r frames: whole frames, 2^32nds of a frame, and out_r-ths of such.
#[derive(Clone, Copy)]
struct Position {
    frame: usize,
    frac: u64,
    over: u64,
}

impl Position {
    // The position num / out_r.
    #[tactic(auto, using(crate::proofs::Place::at_new))]
    fn new(num: u64, out_r: u64) -> Position
        requires { (0 < out_r) × (out_r ≤ 384000) }
        ensures { At out_r num result }
    {
        let rem = num % out_r;
        Position {
            frame: (num / out_r) as usize,
            frac: frac_q32(rem, out_r),
            over: rem * ONE % out_r,
        }
    }

    // The sum of two positions: no division.
    // Kept: `out_r` beside the positions, here and below: it is the stage's, and in each of two positions it would have to be the same.
    #[tactic(auto, using(crate::proofs::Place::sum_is))]
    fn advance(self, step: Position, out_r: u64) -> Position
        requires { Parts out_r self × Parts out_r step × (self.frame + step.frame + 1 < 2 ^ 64) }
        ensures { Sum out_r self step result }
    {
        let mut frac = self.frac + step.frac;
        let mut over = self.over + step.over;
        if over >= out_r {
            frac += 1;
            over -= out_r;
        }
        Position {
            frame: self.frame + step.frame + (frac / ONE) as usize,
            frac: frac % ONE,
            over,
        }
    }

    // How far it lies past n frames, in out_r-ths of a frame.
    fn past(self, n: usize, out_r: u64) -> u64
        requires { Parts out_r self × ((n ≤ self.frame) × ((self.frame - n) * out_r + (self.frac * out_r + self.over) / 2 ^ 32 < 2 ^ 64)) }
        ensures { result ≡ (self.frame - n) * out_r + (self.frac * out_r + self.over) / 2 ^ 32 }
    {
        let frames = self.frame - n;
        (frames as u64) * out_r + (self.frac * out_r + self.over) / ONE
    }
}

// f / 2^32 of the way from a to b.
fn interpolate(a: i16, b: i16, f: u64) -> i16
    requires { f < 2 ^ 32 }
    ensures { result ≡ interpolated a b f }
{
    let x = i64::from(a);
    let d = i64::from(b) - x;
    (x + ((d * (f as i64) + HALF) >> 32)) as i16
}

// Sample c of the output at a position of the block, after the frame `last`.
fn between<const C: usize>(input: &[u8], last: [i16; 2], at: Position, c: usize) -> i16
    requires { Whole C input.now × (at.frame < length input.now / (C * 2)) × (at.frac < 2 ^ 32) × (c < C) }
    ensures { result ≡ interpolated (sample_in (last ∷ frames_of C input.now) at.frame c) (sample_in (last ∷ frames_of C input.now) (suc at.frame) c) at.frac }
{
    let i = at.frame * C + c;
    let before = if at.frame == 0 {
        last[c]
    } else {
        pcm::get_i16(input, (i - C) * 2)
    };
    interpolate(before, pcm::get_i16(input, i * 2), at.frac)
}

// All its samples, as frame k of `out`.
fn put_between<const C: usize>(input: &[u8], last: [i16; 2], at: Position, out: &mut [u8], k: usize)
    requires { Whole C input.now × (at.frame < length input.now / (C * 2)) × (at.frac < 2 ^ 32) × ((k + 1) * (C * 2) ≤ length out.old) }
    ensures { out.new ≡ splice out.old (k * (C * 2)) ((k + 1) * (C * 2)) (bytes_of (frame_between C (last ∷ frames_of C input.now) at.frame at.frac ∷ [])) }
{
    for c in 0..C {
        pcm::put_i16(out, (k * C + c) * 2, between::<C>(input, last, at, c));
    }
}

// The frames written, and where the next one would lie.
#[derive(Clone, Copy)]
struct Delivered {
    frames: usize,
    at: Position,
}

// The outputs between the frames of a block, from num / out_r on in steps of in_r / out_r; position 0 is the frame `last`.
fn run<const C: usize>(
    r: LinearResampler,
    num: u64,
    last: [i16; 2],
    input: &[u8],
    out: &mut [u8],
) -> Delivered
    requires { Ready C r.in_r r.out_r (outputs_from r.in_r r.out_r num (last ∷ frames_of C input.now)) input.now out.old }
    ensures { Looped r.in_r r.out_r num (outputs_from r.in_r r.out_r num (last ∷ frames_of C input.now)) out.old out.new result }
{
    let frames = input.len() / (C * 2);
    let step = Position::new(r.in_r, r.out_r);
    let mut at = Position::new(num, r.out_r);
    let mut k = 0;
    // Kept: a `for` over the frames due needs their count, a quotient in 128 bits, which the compiler's runtime divides: tried, it takes
    // 10 to 13 % more at 16 frames (and 4 % less at 1,024).
    while at.frame < frames {
        put_between::<C>(input, last, at, out, k);
        at = at.advance(step, r.out_r);
        k += 1;
    }
    Delivered { frames: k, at }
}

// The newest frame of a block, in the state's places.
fn newest<const C: usize>(input: &[u8]) -> [i16; 2]
    requires { Whole C input.now × (0 < length input.now) }
    ensures { result ≡ padded (newest [] (frames_of C input.now)) }
{
    let first = input.len() / 2 - C;
    let mut last = [0; 2];
    for c in 0..C {
        last[c] = pcm::get_i16(input, (first + c) * 2);
    }
    last
}

// A block of unequal rates: what it brings at the front of `out`, and the state after it.
fn resample<const C: usize>(
    r: LinearResampler,
    s: ResamplerState,
    input: &[u8],
    out: &mut [u8],
) -> Resampled
    requires { Ready C r.in_r r.out_r (carried_outputs r.in_r r.out_r s (frames_of C input.now)) input.now out.old }
    ensures { Processed (carried_outputs r.in_r r.out_r s (frames_of C input.now)) (carried_state r.in_r r.out_r s (frames_of C input.now)) out.old out.new result }
{
    let num = s.first_position(r.out_r);
    let d = run::<C>(r, num, s.last, input, out);
    Resampled {
        frames: d.frames,
        state: ResamplerState {
            last: newest::<C>(input),
            phase: d.at.past(input.len() / (C * 2), r.out_r),
            primed: true,
        },
    }
}

// A block through the stage: what it brings at the front of `out`, and the state after it.
// The caller brings whole frames, at least one, and room for what they bring.
pub fn process(
    resampler: LinearResampler,
    s: ResamplerState,
    channels: usize,
    input: &[u8],
    out: &mut [u8],
) -> Resampled
    requires { Ready channels resampler.in_r resampler.out_r (resampled resampler s (frames_of channels input.now)) input.now out.old }
    ensures { Processed (resampled resampler s (frames_of channels input.now)) (state_after resampler s (frames_of channels input.now)) out.old out.new result }
{
    if resampler.in_rate == resampler.out_rate {
        copying::copy_front(input, out);
        return Resampled {
            frames: input.len() / (channels * 2),
            state: s,
        };
    }
    match channels {
        1 => resample::<1>(resampler, s, input, out),
        _ => resample::<2>(resampler, s, input, out),
    }
}
