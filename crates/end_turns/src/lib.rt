// The turn of a stage that ends (document 02, Q-1): what it makes of the frames that arrive, then its last frame.
#![tactic(auto)]

ghost use Rattle.std.specs.Prelude.{[], ◌∷◌, ◌*◌, ◌≤◌, ◌<◌, length, take};
ghost use Rattle.pcm.specs.Formats.{OneOrTwo};
ghost use Rattle.pcm.specs.Frames.{FramesOf, frames_of};
ghost use Rattle.turns.specs.Turns.{Makes};
ghost use Rattle.ending.specs.ResamplerEnd.{resampler_end};
ghost use Rattle.ending.specs.StageEnd.{last_of};
ghost use Rattle.end_turns.specs.EndTurns.{Fronted, ServedToEnd, ServesToEnd};

use pcm::PcmFormat;
use rates::{LinearResampler, ResamplerState};
use stage::{SoundMemory, Stage, StageKind};
use turns::Applied;

// What a stage makes of the frames that arrive, of which there may be none.
fn arrived(format: PcmFormat, s: Stage, input: &[u8], out: &mut [u8]) -> Applied
    requires { ServedToEnd format s input.now out.old }
    ensures { Makes format s result.memory result.len result.clipped input.now out.old out.new }
{
    if input.len() == 0 {
        return Applied {
            memory: s.memory,
            len: 0,
            clipped: 0,
        };
    }
    turns::stage_turn(format, &s, input, out)
}

// The first samples of a frame to the front of `out`: how many bytes.
fn put_frame(last: [i16; 2], channels: usize, out: &mut [u8]) -> usize
    requires { OneOrTwo channels × (channels * 2 ≤ length out.old) }
    ensures { Fronted (take channels last ∷ []) out.old out.new result }
{
    let [left, right] = last;
    pcm::put_i16(out, 0, left);
    if channels == 1 {
        return 2;
    }
    pcm::put_i16(out, 2, right);
    4
}

// A resampler's frame held, where its rates are unequal and the next output falls on it, at the front of `out`: how many bytes.
fn put_held(r: LinearResampler, s: ResamplerState, channels: usize, out: &mut [u8]) -> usize
    requires { OneOrTwo channels × (length (resampler_end channels r s) * (channels * 2) ≤ length out.old) }
    ensures { Fronted (resampler_end channels r s) out.old out.new result }
{
    if r.in_rate == r.out_rate || !s.primed || s.phase != 0 {
        return 0;
    }
    put_frame(s.last, channels, out)
}

// What a stage adds at its end, at the front of `out`: how many bytes.
fn put_last(channels: usize, kind: StageKind, memory: SoundMemory, out: &mut [u8]) -> usize
    requires { OneOrTwo channels × (length (last_of channels kind memory) * (channels * 2) ≤ length out.old) }
    ensures { Fronted (last_of channels kind memory) out.old out.new result × FramesOf channels (last_of channels kind memory) }
{
    match kind {
        StageKind::Resample(r) => put_held(r, stage::held_samples(memory.resampler), channels, out),
        StageKind::Gain(_)
        | StageKind::MonoToStereo
        | StageKind::StereoToMono
        | StageKind::DcBlock(_)
        | StageKind::Biquad(_) => 0,
    }
}

// How many bytes a stage that ends delivers, and how many samples it held back.
#[derive(Clone, Copy)]
pub struct EndApplied {
    pub len: usize,
    pub clipped: usize,
}

// The turn of a stage that ends: what it makes of `input`, which may be empty, then its last frame, stand at the front of `out`. A last
// frame is as it arrived: nothing of it is held back.
pub fn end_turn(format: PcmFormat, s: Stage, input: &[u8], out: &mut [u8]) -> EndApplied
    requires { ServedToEnd format s input.now out.old }
    ensures { ServesToEnd format s (frames_of format.channels input.now) result.len result.clipped out.old out.new }
{
    let t = arrived(format, s, input, out);
    let last = put_last(
        format.channels as usize,
        s.kind,
        t.memory,
        &mut out[t.len..],
    );
    EndApplied {
        len: t.len + last,
        clipped: t.clipped,
    }
}
