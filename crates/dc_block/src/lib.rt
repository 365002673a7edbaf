// Removes the offset of a signal: a one-pole high-pass (dc_block.rs).
#![tactic(auto)]

ghost use Rattle.std.specs.Prelude.{◌≡◌, true, pos};
ghost use Rattle.std.specs.Float.{binary32};
ghost use Rattle.std.specs.Float.Ieee.{of_bits, of_int};
ghost use Rattle.floats.specs.Floats.{pattern_of};
ghost use Rattle.pcm.specs.Formats.{rate_allowed};
ghost use Rattle.filters.specs.Filters.{FilterBlock, FilteredBlock};
ghost use Rattle.dc_block.specs.DcBlock.{dc_tick, pole_of, pole_verdict, pole_answer, pole_told, pole_valued, untuned};

use filters::{FilterMemory, Filtered, Taps, Tick};
use pcm::Error;

// 2π as a binary32.
const TAU: f32 = 6.2831855;

// Number and pole of an answer: 0 and the pole, or the refusal's number and 0.
#[derive(Clone, Copy)]
pub struct PoleTold {
    pub number: u16,
    pub pole: f32,
}

impl From<Result<f32, Error>> for PoleTold {
    ghost from_gives = { λ answer told. told ≡ pole_told answer };

    // Number and pole of each case.
    fn from(answer: Result<f32, Error>) -> PoleTold {
        match answer {
            Ok(pole) => PoleTold { number: 0, pole },
            Err(e) => PoleTold {
                number: e.number(),
                pole: 0.0,
            },
        }
    }
}

// The corner's bits, as they came, and the pole, +0 until the filter is tuned to a rate.
#[derive(Clone, Copy)]
pub struct DcBlock {
    pub corner: u32,
    pub r: f32,
}

impl DcBlock {
    // A corner of 20 Hz.
    pub fn new() -> DcBlock
        ensures { result ≡ untuned (pattern_of (of_int binary32 (pos 20))) }
    {
        DcBlock::with_corner(20.0)
    }

    pub fn with_corner(corner: f32) -> DcBlock
        ensures { result ≡ untuned (pattern_of corner) }
    {
        DcBlock::from_bits(floats::bits_of_float(corner))
    }

    // The corner by its bits, of any value.
    pub fn from_bits(corner: u32) -> DcBlock
        ensures { result ≡ untuned corner }
    {
        DcBlock { corner, r: 0.0 }
    }

    // The pole for a rate, refused where the rate is not within its limit.
    #[tactic(auto, unfolding(crate::specs::DcBlock::pole_answer, crate::specs::DcBlock::pole_verdict))]
    pub fn pole(corner: f32, rate: u32) -> Result<f32, Error>
        ensures value { result ≡ pole_answer corner rate }
        ensures told { pole_told result ≡ pole_valued (pole_verdict rate) (pole_of corner rate) }
    {
        if !pcm::rate_allowed(rate) {
            return Err(Error::InvalidFormat);
        }
        Ok(radius(corner, rate))
    }

    // The filter with its pole for an allowed rate.
    pub fn tuned(self, rate: u32) -> DcBlock
        requires { rate_allowed rate ≡ true }
        ensures { result ≡ record { corner = self.corner; r = pole_of (of_bits binary32 self.corner) rate } }
    {
        DcBlock {
            corner: self.corner,
            r: radius(floats::float_of_bits(self.corner), rate),
        }
    }

    // Filters the whole frames of `input` into the front of `out`; the memory goes in and comes back, beside how many samples were held back.
    // Kept: a method of each filter over the shared loop: its promise names the filter's own recurrence.
    pub fn process(
        self,
        input: &[u8],
        out: &mut [u8],
        channels: usize,
        memory: FilterMemory,
    ) -> Filtered
        requires { FilterBlock channels input.now out.old }
        ensures { FilteredBlock (dc_tick self.r) channels memory input.now out.old out.new result }
    {
        filters::process(&self, input, out, channels, memory)
    }
}

impl Tick for DcBlock {
    ghost tick = { λ filter. dc_tick filter.r };

    // y = (x - x1) + r * y1; x2 and y2 stay, no part of this filter's sound state.
    #[tactic(auto, unfolding(crate::specs::DcBlock::dc_tick))]
    fn tick(&self, taps: Taps, x: i16) -> Taps {
        let x = f32::from(x);
        let y = (x - taps.x1) + self.r * taps.y1;
        Taps {
            x1: x,
            y1: y,
            ..taps
        }
    }
}

// 1 - (TAU * corner) / rate
fn radius(corner: f32, rate: u32) -> f32
    requires { rate_allowed rate ≡ true }
    ensures { result ≡ pole_of corner rate }
{
    1.0 - (TAU * corner) / (rate as f32)
}
