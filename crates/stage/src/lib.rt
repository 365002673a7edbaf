// One stage of a chain: its kind, the sound memory beside it, and what it asks of a block.
#![tactic(auto)]

ghost use Rattle.std.specs.Prelude.{◌≡◌, true, false, ◌&&◌, ◌*◌, ◌≤◌, eqb, leb, ltb, length};
ghost use Rattle.pcm.specs.Samples.{Samples};
ghost use Rattle.stage.specs.Rooms.{rates_suit, stage_suits, frames_out, frames_wanted, Bounded, FewFrames};
ghost use Rattle.stage.specs.Stages.{format_after, memory_as_opened, remembers, stage_as_opened, stage_clear};

use biquad::Biquad;
use dc_block::DcBlock;
use filters::FilterMemory;
use gain::Gain;
use pcm::PcmFormat;
use rates::{LinearResampler, ResamplerState};

#[derive(Clone, Copy)]
pub enum StageKind {
    Gain(Gain),
    MonoToStereo,
    StereoToMono,
    Resample(LinearResampler),
    DcBlock(DcBlock),
    Biquad(Biquad),
}

// What a stage remembers of the sound that it took: a filter's part and a resampler's.
#[derive(Clone, Copy)]
pub struct SoundMemory {
    pub filter: FilterMemory,
    pub resampler: ResamplerState,
}

#[derive(Clone, Copy)]
pub struct Stage {
    pub kind: StageKind,
    pub memory: SoundMemory,
}

impl SoundMemory {
    // As opened, and after a reset.
    pub fn new() -> SoundMemory
        ensures { result ≡ memory_as_opened }
    {
        SoundMemory {
            filter: FilterMemory::new(),
            resampler: ResamplerState::new(),
        }
    }
}

impl Stage {
    // A stage as opened.
    pub fn new(kind: StageKind) -> Stage
        ensures { result ≡ stage_as_opened kind }
    {
        Stage {
            kind,
            memory: SoundMemory::new(),
        }
    }

    // The sound memory cleared.
    pub fn reset(self) -> Stage
        ensures { result ≡ stage_clear self }
    {
        Stage::new(self.kind)
    }
}

// The format that leaves a stage, where `format` reaches it.
pub fn format_after(format: PcmFormat, kind: StageKind) -> PcmFormat
    ensures { result ≡ format_after format kind }
{
    match kind {
        StageKind::MonoToStereo => PcmFormat {
            channels: 2,
            ..format
        },
        StageKind::StereoToMono => PcmFormat {
            channels: 1,
            ..format
        },
        StageKind::Resample(r) => PcmFormat {
            rate: r.out_rate,
            ..format
        },
        _ => format,
    }
}

// Is a part of a rate from 1 to the rate itself?
fn part_suits(part: u64, rate: u64) -> bool
    ensures { result ≡ (ltb 0 part && leb part rate) }
{
    (1..=rate).contains(&part)
}

// Are a resampler's rates within their limit, and in_r and out_r of the same ratio and no larger?
fn rates_suit(r: LinearResampler) -> bool
    ensures { result ≡ rates_suit r }
{
    pcm::rate_allowed(r.in_rate)
        && pcm::rate_allowed(r.out_rate)
        && parts_suit(u64::from(r.in_rate), u64::from(r.out_rate), r.in_r, r.out_r)
}

fn parts_suit(input: u64, output: u64, in_r: u64, out_r: u64) -> bool
    requires { (input ≤ 384000) × (output ≤ 384000) }
    ensures { result ≡ ((ltb 0 in_r && leb in_r input) && ((ltb 0 out_r && leb out_r output) && eqb (in_r * output) (out_r * input))) }
{
    part_suits(in_r, input) && part_suits(out_r, output) && in_r * output == out_r * input
}

// What the block call needs of a stage that `format` reaches: settings within their limits, a format that suits, a phase below in_r.
#[tactic(auto, unfolding(crate::specs::Rooms::stage_suits))]
pub fn stage_suits(format: PcmFormat, stage: Stage) -> bool
    ensures { result ≡ stage_suits format stage.kind stage.memory }
{
    match stage.kind {
        StageKind::Gain(g) => g.allowed(),
        StageKind::MonoToStereo => format.channels == 1,
        StageKind::StereoToMono => format.channels == 2,
        StageKind::Resample(r) => resampler_suits(format.rate, r, stage.memory.resampler.phase),
        StageKind::DcBlock(_) => true,
        StageKind::Biquad(b) => format.rate == b.rate,
    }
}

fn resampler_suits(rate: u32, r: LinearResampler, phase: u64) -> bool
    ensures { result ≡ (rates_suit r && (eqb rate r.in_rate && ltb phase r.in_r)) }
{
    rates_suit(r) && rate == r.in_rate && phase < r.in_r
}

// How many frames a stage delivers of so many, from the phase alone.
#[tactic(auto, unfolding(crate::specs::Rooms::frames_out))]
pub fn frames_out(stage: Stage, frames: usize) -> usize
    requires { FewFrames frames × Bounded stage.kind }
    ensures { result ≡ frames_out stage.kind stage.memory frames }
{
    let state = stage.memory.resampler;
    match stage.kind {
        StageKind::Resample(r) => r.output_frames(state, frames),
        _ => frames,
    }
}

// The frames that a stage wants room for.
#[tactic(auto, unfolding(crate::specs::Rooms::frames_wanted))]
pub fn frames_wanted(kind: StageKind, frames: usize) -> usize
    requires { FewFrames frames × Bounded kind }
    ensures { result ≡ frames_wanted kind frames }
{
    match kind {
        StageKind::Resample(r) => r.room_frames(frames),
        _ => frames,
    }
}

// The state as it is; that its newest frame is of two samples is what its type says.
// What the type says of a sample is known where the sample is read, so both are read and put back.
pub fn held_samples(state: ResamplerState) -> ResamplerState
    ensures { (result ≡ state) × Samples state.last × (length state.last ≡ 2) }
{
    let [left, right] = state.last;
    ResamplerState {
        last: [left, right],
        ..state
    }
}

// Does a stage of this kind remember sound? Gain and the channel stages keep nothing.
pub fn remembers(kind: StageKind) -> bool
    ensures { result ≡ remembers kind }
{
    matches!(
        kind,
        StageKind::Resample(_) | StageKind::DcBlock(_) | StageKind::Biquad(_)
    )
}
