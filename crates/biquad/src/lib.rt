// Second-order filters in direct form I (biquad.rs).
#![tactic(auto)]

ghost use Rattle.std.specs.Prelude.{◌≡◌};
ghost use Rattle.filters.specs.Filters.{FilterBlock, FilteredBlock};
ghost use Rattle.cookbook.specs.Cookbook.{identity};
ghost use Rattle.biquad.specs.Recurrence.{biquad_tick, patterns, floats};

use cookbook::Coefficients;
use filters::{FilterMemory, Filtered, Taps, Tick};

// The coefficients' bits, as they came.
#[derive(Clone, Copy)]
pub struct CoefficientBits {
    pub b0: u32,
    pub b1: u32,
    pub b2: u32,
    pub a1: u32,
    pub a2: u32,
}

impl From<Coefficients> for CoefficientBits {
    ghost from_gives = { λ k bits. bits ≡ patterns k };

    fn from(k: Coefficients) -> CoefficientBits {
        CoefficientBits {
            b0: floats::bits_of_float(k.b0),
            b1: floats::bits_of_float(k.b1),
            b2: floats::bits_of_float(k.b2),
            a1: floats::bits_of_float(k.a1),
            a2: floats::bits_of_float(k.a2),
        }
    }
}

impl From<CoefficientBits> for Coefficients {
    ghost from_gives = { λ bits k. k ≡ floats bits };

    fn from(bits: CoefficientBits) -> Coefficients {
        Coefficients {
            b0: floats::float_of_bits(bits.b0),
            b1: floats::float_of_bits(bits.b1),
            b2: floats::float_of_bits(bits.b2),
            a1: floats::float_of_bits(bits.a1),
            a2: floats::float_of_bits(bits.a2),
        }
    }
}

// A filter for one rate.
#[derive(Clone, Copy)]
pub struct Biquad {
    pub rate: u32,
    pub coefficients: Coefficients,
    pub bits: CoefficientBits,
}

impl Biquad {
    // A filter of these coefficients.
    pub fn new(rate: u32, coefficients: Coefficients) -> Biquad
        ensures { result ≡ record { rate = rate; coefficients = coefficients; bits = patterns coefficients } }
    {
        Biquad {
            rate,
            coefficients,
            bits: coefficients.into(),
        }
    }

    // The filter that changes nothing.
    pub fn flat(rate: u32) -> Biquad
        ensures { result ≡ record { rate = rate; coefficients = identity; bits = patterns identity } }
    {
        Biquad::new(rate, Coefficients::flat())
    }

    // A filter of the coefficients with these bits, of any value.
    pub fn from_bits(rate: u32, bits: CoefficientBits) -> Biquad
        ensures { result ≡ record { rate = rate; coefficients = floats bits; bits = bits } }
    {
        Biquad {
            rate,
            coefficients: bits.into(),
            bits,
        }
    }

    // Filters the whole frames of `input` into the front of `out`; the memory goes in and comes back, beside how many samples were held back.
    // Kept: a method of each filter over the shared loop: its promise names the filter's own recurrence.
    pub fn process(
        self,
        input: &[u8],
        out: &mut [u8],
        channels: usize,
        memory: FilterMemory,
    ) -> Filtered
        requires { FilterBlock channels input.now out.old }
        ensures { FilteredBlock (biquad_tick self.coefficients) channels memory input.now out.old out.new result }
    {
        filters::process(&self, input, out, channels, memory)
    }
}

impl Tick for Biquad {
    ghost tick = { λ filter. biquad_tick filter.coefficients };

    // y = (((b0 * x + b1 * x1) + b2 * x2) - a1 * y1) - a2 * y2
    #[tactic(auto, unfolding(crate::specs::Recurrence::biquad_tick))]
    fn tick(&self, taps: Taps, x: i16) -> Taps {
        let Coefficients { b0, b1, b2, a1, a2 } = self.coefficients;
        let Taps { x1, x2, y1, y2 } = taps;
        let x = f32::from(x);
        let y = b0 * x + b1 * x1 + b2 * x2 - a1 * y1 - a2 * y2;
        Taps {
            x1: x,
            x2: x1,
            y1: y,
            y2: y1,
        }
    }
}
