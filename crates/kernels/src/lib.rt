// The block functions, and the opening of a resampler, for a caller in another language, to be timed. A caller tests what each requires.
// Gain, mix and filters answer how many samples they held back.
#![tactic(auto)]

ghost use Rattle.std.specs.Prelude.{◌≡◌, ◌*◌, ◌/◌, ◌%◌, ◌≤◌, length};
ghost use Rattle.pcm.specs.Samples.{decode};
ghost use Rattle.pcm.specs.Frames.{frames_of, bytes_of, written};
ghost use Rattle.filters.specs.Filters.{FilterBlock, filtered, filter_clipped, taps_of, memory_at_rest};
ghost use Rattle.dc_block.specs.DcBlock.{dc_tick};
ghost use Rattle.biquad.specs.Recurrence.{biquad_tick};
ghost use Rattle.gain.specs.Clipping.{clipped_in};
ghost use Rattle.gain.specs.Gain.{GainBlock, scaled_bytes};
ghost use Rattle.rates.specs.Rates.{resampler_of};
ghost use Rattle.rates.specs.Answers.{new_told};
ghost use Rattle.resample.specs.Stage.{Ready};
ghost use Rattle.kernels.specs.Opened.{opened_output, rates_result};
ghost use Rattle.channels.specs.Channels.{stereo_bytes, mono_bytes, mix_answer, after_mix, mix_told};

use biquad::Biquad;
use cookbook::Coefficients;
use dc_block::DcBlock;
use filters::FilterMemory;
use gain::Gain;
use pcm::Error;
use rates::{LinearResampler, ResamplerState};

// `number` is 0 or the refusal's, which has no rates.
#[repr(C)]
#[derive(Clone, Copy)]
pub struct RatesResult {
    pub number: u16,
    pub in_r: u64,
    pub out_r: u64,
}

impl From<Result<LinearResampler, Error>> for RatesResult {
    ghost from_gives = { λ answer told. told ≡ rates_result (new_told answer) };

    // Number and values of each case.
    fn from(answer: Result<LinearResampler, Error>) -> RatesResult {
        match answer {
            Ok(r) => RatesResult {
                number: 0,
                in_r: r.in_r,
                out_r: r.out_r,
            },
            Err(e) => RatesResult {
                number: e.number(),
                in_r: 0,
                out_r: 0,
            },
        }
    }
}

#[unsafe(no_mangle)]
pub extern "C" fn new_resampler(in_rate: u32, out_rate: u32) -> RatesResult
    ensures { result ≡ rates_result (new_told (resampler_of in_rate out_rate)) }
{
    RatesResult::from(LinearResampler::new(in_rate, out_rate))
}

#[unsafe(no_mangle)]
pub extern "C" fn gain_block(q15: i32, input: &[u8], out: &mut [u8]) -> usize
    requires { GainBlock q15 input.now out.old }
    ensures { (out.new ≡ written (scaled_bytes q15 input.now) out.old) × (result ≡ clipped_in q15 (decode input.now)) }
{
    Gain { q15 }.process(input, out)
}

#[unsafe(no_mangle)]
pub extern "C" fn mono_to_stereo_block(input: &[u8], out: &mut [u8])
    requires { (length input.now % 2 ≡ 0) × (length input.now * 2 ≤ length out.old) }
    ensures { out.new ≡ written (stereo_bytes input.now) out.old }
{
    channels::mono_to_stereo(input, out);
}

#[unsafe(no_mangle)]
pub extern "C" fn stereo_to_mono_block(input: &[u8], out: &mut [u8])
    requires { (length input.now % 4 ≡ 0) × (length input.now / 2 ≤ length out.old) }
    ensures { out.new ≡ written (mono_bytes input.now) out.old }
{
    channels::stereo_to_mono(input, out);
}

// A refused mix holds nothing back.
#[unsafe(no_mangle)]
pub extern "C" fn mix_block(a: &[u8], b: &[u8], out: &mut [u8]) -> usize
    ensures { (result ≡ (mix_told (mix_answer a.now b.now out.old)).clipped) × (out.new ≡ after_mix (mix_answer a.now b.now out.old) a.now b.now out.old) }
{
    channels::mix_i16(a, b, out).unwrap_or(0)
}

// From a memory at rest.
#[unsafe(no_mangle)]
pub extern "C" fn dc_block_block(r: f32, channels: usize, input: &[u8], out: &mut [u8]) -> usize
    requires { FilterBlock channels input.now out.old }
    ensures { (out.new ≡ written (bytes_of (filtered (dc_tick r) (taps_of memory_at_rest) (frames_of channels input.now))) out.old) × (result ≡ filter_clipped (dc_tick r) (taps_of memory_at_rest) (frames_of channels input.now)) }
{
    let stage = DcBlock { corner: 0, r };
    stage
        .process(input, out, channels, FilterMemory::new())
        .clipped
}

// From a memory at rest.
#[unsafe(no_mangle)]
pub extern "C" fn biquad_block(
    b0: f32,
    b1: f32,
    b2: f32,
    a1: f32,
    a2: f32,
    channels: usize,
    input: &[u8],
    out: &mut [u8],
) -> usize
    requires { FilterBlock channels input.now out.old }
    ensures { (out.new ≡ written (bytes_of (filtered (biquad_tick (record { b0 = b0; b1 = b1; b2 = b2; a1 = a1; a2 = a2 })) (taps_of memory_at_rest) (frames_of channels input.now))) out.old) × (result ≡ filter_clipped (biquad_tick (record { b0 = b0; b1 = b1; b2 = b2; a1 = a1; a2 = a2 })) (taps_of memory_at_rest) (frames_of channels input.now)) }
{
    let stage = Biquad::new(1, Coefficients { b0, b1, b2, a1, a2 });
    stage
        .process(input, out, channels, FilterMemory::new())
        .clipped
}

// A resampler as opened. The rates, then in_r and out_r. The frames written.
#[unsafe(no_mangle)]
pub extern "C" fn resample_block(
    in_rate: u32,
    out_rate: u32,
    in_r: u64,
    out_r: u64,
    channels: usize,
    input: &[u8],
    out: &mut [u8],
) -> usize
    requires { Ready channels in_r out_r (opened_output in_rate out_rate in_r out_r channels input.now) input.now out.old }
    ensures { (result ≡ length (opened_output in_rate out_rate in_r out_r channels input.now)) × (out.new ≡ written (bytes_of (opened_output in_rate out_rate in_r out_r channels input.now)) out.old) }
{
    let stage = LinearResampler {
        in_rate,
        out_rate,
        in_r,
        out_r,
    };
    resample::process(stage, ResamplerState::new(), channels, input, out).frames
}
