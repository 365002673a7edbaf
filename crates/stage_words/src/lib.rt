// A stage as eighteen plain words: its kind and settings, then what it remembers.
#![tactic(auto)]

ghost use Rattle.std.specs.Prelude.{◌≡◌, [], ◌∷◌, ◌≤◌, ◌<◌, length, T};
ghost use Rattle.std.specs.Float.{binary32};
ghost use Rattle.std.specs.Float.Ieee.{fits};
ghost use Rattle.floats.specs.Floats.{pattern_of};
ghost use Rattle.stage_words.specs.Layout.{setting_words, float_word, filter_words, state_words, word, float_at, kind_of, filter_of, state_of, memory_of, stage_of};
ghost use Rattle.stage_words.specs.Storable.{TwoFloats, TwoSamples, HeldFilter, HeldKind};

use biquad::{Biquad, CoefficientBits};
use dc_block::DcBlock;
use filters::FilterMemory;
use gain::Gain;
use rates::{LinearResampler, ResamplerState};
use stage::{SoundMemory, Stage, StageKind};

// ---- a stage, from the words that begin at its place
fn float_at(w: &[u32], i: usize) -> f32
    requires { i < length w.now }
    ensures { result ≡ float_at w.now i }
{
    floats::float_of_bits(w[i])
}

// The kind and its settings.
// Kept: numbers for kinds, here and in `setting_words`: they are words of C's, and this is where they become a kind, with their fields. A
// kind that is not there is read as mono to stereo, whose number is 2.
#[tactic(auto, unfolding(crate::specs::Layout::kind_of))]
pub fn kind_of(w: &[u32]) -> StageKind
    requires { 18 ≤ length w.now }
    ensures { result ≡ kind_of w.now (word w.now 0) }
{
    match *w {
        [1, q15, ..] => StageKind::Gain(Gain {
            q15: q15.cast_signed(),
        }),
        [3, ..] => StageKind::StereoToMono,
        [4, in_rate, out_rate, in_r, out_r, ..] => StageKind::Resample(LinearResampler {
            in_rate,
            out_rate,
            in_r: u64::from(in_r),
            out_r: u64::from(out_r),
        }),
        [5, corner, r, ..] => StageKind::DcBlock(DcBlock {
            corner,
            r: floats::float_of_bits(r),
        }),
        [6, rate, b0, b1, b2, a1, a2, ..] => {
            let bits = CoefficientBits { b0, b1, b2, a1, a2 };
            StageKind::Biquad(Biquad::from_bits(rate, bits))
        }
        _ => StageKind::MonoToStereo,
    }
}

#[tactic(auto, unfolding(crate::specs::Layout::filter_of))]
pub fn filter_of(w: &[u32]) -> FilterMemory
    requires { 18 ≤ length w.now }
    ensures { result ≡ filter_of w.now }
{
    FilterMemory {
        x1: [float_at(w, 7), float_at(w, 8)],
        x2: [float_at(w, 9), float_at(w, 10)],
        y1: [float_at(w, 11), float_at(w, 12)],
        y2: [float_at(w, 13), float_at(w, 14)],
    }
}

#[tactic(auto, unfolding(crate::specs::Layout::state_of))]
pub fn state_of(w: &[u32]) -> ResamplerState
    requires { 18 ≤ length w.now }
    ensures { result ≡ state_of w.now }
{
    let left = (w[15] % 65536) as u16;
    let right = (w[15] / 65536) as u16;
    ResamplerState {
        last: [left.cast_signed(), right.cast_signed()],
        phase: u64::from(w[16]),
        primed: w[17] != 0,
    }
}

pub fn memory_of(w: &[u32]) -> SoundMemory
    requires { 18 ≤ length w.now }
    ensures { result ≡ memory_of w.now }
{
    SoundMemory {
        filter: filter_of(w),
        resampler: state_of(w),
    }
}

// Taken in by each caller: what it does not ask of the stage is not read.
#[inline(always)]
pub fn stage_of(w: &[u32]) -> Stage
    requires { 18 ≤ length w.now }
    ensures { result ≡ stage_of w.now }
{
    Stage {
        kind: kind_of(w),
        memory: memory_of(w),
    }
}

// ---- and to those words
// The bits of a float; that it is of 32 bits is what its type says.
fn float_bits(x: f32) -> u32
    ensures { (result ≡ pattern_of x) × T (fits binary32 x) }
{
    floats::bits_of_float(x)
}

// The kind's seven words. That its numbers are of 32 bits is what its type says.
#[tactic(auto, unfolding(crate::specs::Layout::setting_words))]
pub fn setting_words(kind: StageKind) -> [u32; 7]
    ensures { (result ≡ setting_words kind) × HeldKind kind }
{
    match kind {
        StageKind::Gain(g) => [1, g.q15.cast_unsigned(), 0, 0, 0, 0, 0],
        StageKind::MonoToStereo => [2, 0, 0, 0, 0, 0, 0],
        StageKind::StereoToMono => [3, 0, 0, 0, 0, 0, 0],
        StageKind::Resample(r) => [
            4,
            r.in_rate,
            r.out_rate,
            (r.in_r % 4294967296) as u32,
            (r.out_r % 4294967296) as u32,
            0,
            0,
        ],
        StageKind::DcBlock(d) => [5, d.corner, floats::bits_of_float(d.r), 0, 0, 0, 0],
        StageKind::Biquad(b) => {
            let bits = b.bits;
            [6, b.rate, bits.b0, bits.b1, bits.b2, bits.a1, bits.a2]
        }
    }
}

// A filter's memory.
#[tactic(auto, unfolding(crate::specs::Layout::filter_words))]
pub fn filter_words(m: FilterMemory) -> [u32; 8]
    ensures { (result ≡ filter_words m) × HeldFilter m }
{
    let [x1_left, x1_right] = pair_words(m.x1);
    let [x2_left, x2_right] = pair_words(m.x2);
    let [y1_left, y1_right] = pair_words(m.y1);
    let [y2_left, y2_right] = pair_words(m.y2);
    [
        x1_left, x1_right, x2_left, x2_right, y1_left, y1_right, y2_left, y2_right,
    ]
}

// The floats of two channels.
fn pair_words(p: [f32; 2]) -> [u32; 2]
    ensures { (result ≡ float_word p 0 ∷ float_word p 1 ∷ []) × TwoFloats p }
{
    let [left, right] = p;
    [float_bits(left), float_bits(right)]
}

// A resampler's state.
#[tactic(auto, unfolding(crate::specs::Layout::state_words))]
pub fn state_words(s: ResamplerState) -> [u32; 3]
    ensures { (result ≡ state_words s) × TwoSamples s.last }
{
    let [left, right] = s.last.map(|x| u32::from(x.cast_unsigned()));
    let phase = (s.phase % 4294967296) as u32;
    [left + 65536 * right, phase, u32::from(s.primed)]
}
