// How many frames a stage delivers of those that arrive and at its end (document 02, Q-1).
#![tactic(auto)]

ghost use Rattle.std.specs.Prelude.{◌≡◌, ◌+◌, ◌*◌, ◌≤◌, ◌<◌, ◌^◌};
ghost use Rattle.stage.specs.Rooms.{Bounded, FewFrames};
ghost use Rattle.ending.specs.ResamplerEnd.{up_to, end_frame_count};
ghost use Rattle.ending.specs.StageEnd.{frames_at_end};

use rates::{LinearResampler, ResamplerState};
use stage::{Stage, StageKind};

// How many of p, p + step, p + 2 * step, .. lie at d or below it.
fn up_to(step: u64, p: u64, d: u64) -> usize
    requires { (0 < step) × (d + 1 < 2 ^ 64) }
    ensures { result ≡ up_to step p d }
{
    if d < p {
        return 0;
    }
    ((d - p) / step + 1) as usize
}

// How many frames a resampler makes of so many and at its end, from the phase alone: exact, at equal rates also.
#[tactic(auto, unfolding(crate::specs::ResamplerEnd::end_frame_count, crate::specs::ResamplerEnd::end_count))]
fn resampled_to_end(r: LinearResampler, state: ResamplerState, frames: usize) -> usize
    requires { (0 < r.in_r) × (frames * r.out_r + r.in_r < 2 ^ 64) }
    ensures { result ≡ end_frame_count r state.primed state.phase frames }
{
    if r.in_rate == r.out_rate {
        return frames;
    }
    if state.primed {
        return up_to(r.in_r, state.phase, (frames as u64) * r.out_r);
    }
    if frames == 0 {
        return 0;
    }
    up_to(r.in_r, 0, ((frames - 1) as u64) * r.out_r)
}

// How many frames a stage delivers of so many and at its end, from the phase alone.
#[tactic(auto, unfolding(crate::specs::StageEnd::frames_at_end))]
pub fn frames_at_end(stage: Stage, frames: usize) -> usize
    requires { FewFrames frames × Bounded stage.kind }
    ensures { result ≡ frames_at_end stage.kind stage.memory frames }
{
    let state = stage.memory.resampler;
    match stage.kind {
        StageKind::Resample(r) => resampled_to_end(r, state, frames),
        _ => frames,
    }
}
