// Floats by their bits: patterns, rounding to whole numbers and samples, and narrowing to binary32 (lib.rs, biquad.rs).
#![tactic(auto)]

ghost use Rattle.std.specs.Prelude.{◌≡◌, ◌≤◌, ◌%◌};
ghost use Rattle.std.specs.Float.{binary32};
ghost use Rattle.std.specs.Float.Ieee.{of_bits};
ghost use Rattle.std.specs.Int.{w16};
ghost use Rattle.std.proofs.Common.{to_z};
ghost use Rattle.floats.specs.Floats.{pattern_of, narrowed};
ghost use Rattle.floats.specs.Rounding.{round_sat, rounded16, clipped, rounded_sample, held_float};

use pcm::Saturated;
use std::num;

// The float that a pattern stands for; every NaN's pattern gives a NaN.
pub fn float_of_bits(n: u32) -> f32
    ensures { result ≡ of_bits binary32 n }
{
    num::f32_from_bits_with_nan(n)
}

// The pattern of a float; a NaN gives 0x7fc0_0000.
#[tactic(auto, using(crate::proofs::Library::pattern_is))]
pub fn bits_of_float(x: f32) -> u32
    ensures { result ≡ pattern_of x }
{
    num::f32_to_bits_with_nan(x)
}

// To the nearest whole number, halves away from zero, held within -low and high; a NaN gives 0.
pub fn round_held(x: f32, low: u32, high: u32) -> i32
    requires { (low ≤ 33554432) × (high ≤ 33554432) }
    ensures { result ≡ round_sat low high x }
{
    num::saturating_f32_to_i32(x.round()).clamp(-low.cast_signed(), high.cast_signed())
}

// x held where it still rounds to a limit of the sample range, a NaN as it is: sound that is too loud then takes the same way as
// other sound.
fn hold16(x: f32) -> f32
    ensures { result ≡ held_float x }
{
    x.clamp(-32768.49609375, 32767.498046875)
}

// To binary32: to the nearest, ties to even.
#[tactic(auto, using(crate::proofs::Library::narrowed_is))]
pub fn narrow(x: f64) -> f32
    ensures { result ≡ narrowed x }
{
    num::nearest_f64_to_f32_with_nan(x)
}

// To the nearest whole number, halves away from zero, held within the sample range; a NaN gives 0. A sample at exactly the limit was
// not held back; a NaN was.
pub fn round_sat16(v: f32) -> Saturated
    ensures { result ≡ rounded_sample v }
{
    Saturated {
        sample: rounded16(v),
        clipped: clipped(v),
    }
}

// The sample alone. The float is held before it is rounded, so nothing is to be held afterwards.
// Past 2^52 a binary64 is a whole number, so the sum with 3 * 2^51 is rounded, and its lowest bits are the sample's. It rounds
// ties to even; the factor 1 + 2^-28 takes halves away from zero before, and nothing else past a half.
// Kept: the library's `round` and saturating cast give this sample too, and take four to seven times as long in a loop of samples.
pub fn rounded16(v: f32) -> i16
    ensures { result ≡ rounded16 v }
{
    let h = hold16(v);
    if h.is_nan() {
        return 0;
    }
    low16(((h as f64) * 1.0000000037252903 + 6755399441055744.0).to_bits())
}

// The sample whose 16 bits stand lowest.
fn low16(b: u64) -> i16
    ensures { result ≡ to_z w16 (b % 65536) }
{
    ((b % 65536) as u16).cast_signed()
}

// Whether it is held back: holding the float changes it. A NaN differs from itself.
pub fn clipped(v: f32) -> bool
    ensures { result ≡ clipped v }
{
    hold16(v) != v
}
