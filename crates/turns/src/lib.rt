// A stage's turn: what a stage of any kind makes of the bytes that reach it, and where they lie in a block. Stage i + 1 reads the block or
// the n bytes that the stage before wrote, and writes to half a where i is even, else to b.
#![tactic(auto)]

ghost use Rattle.std.specs.Prelude.{◌≡◌, ◌≤◌, length};
ghost use Rattle.turns.specs.Turns.{halves, even_source, TurnAsks, TurnDoes, StepAsks, StepDoes, Takes, Makes};

use filters::Filtered;
use pcm::PcmFormat;
use stage::{SoundMemory, Stage, StageKind};

// A stage's memory after its turn, how many bytes it delivered, and how many samples it held back.
#[derive(Clone, Copy)]
pub struct Applied {
    pub memory: SoundMemory,
    pub len: usize,
    pub clipped: usize,
}

// What a stage of any kind makes of `input`, at the front of `out`. The channel stages and the resampler hold nothing back.
// One body for all callers: each kind's block function then has one call site, and is inlined here.
#[inline(never)]
pub fn stage_turn(format: PcmFormat, s: &Stage, input: &[u8], out: &mut [u8]) -> Applied
    requires { Takes format s.now input.now out.old }
    ensures { Makes format s.now result.memory result.len result.clipped input.now out.old out.new }
{
    // Field by field: a copy of the whole takes its padding along, which costs a short block more than its samples.
    let held = stage::held_samples(s.memory.resampler);
    let memory = SoundMemory {
        resampler: held,
        ..s.memory
    };
    let channels = format.channels as usize;
    let len = input.len();
    match s.kind {
        StageKind::Gain(g) => {
            let clipped = g.process(input, out);
            Applied {
                memory,
                len,
                clipped,
            }
        }
        StageKind::MonoToStereo => {
            channels::mono_to_stereo(input, out);
            Applied {
                memory,
                len: len * 2,
                clipped: 0,
            }
        }
        StageKind::StereoToMono => {
            channels::stereo_to_mono(input, out);
            Applied {
                memory,
                len: len / 2,
                clipped: 0,
            }
        }
        StageKind::Resample(r) => {
            let t = resample::process(r, held, channels, input, out);
            Applied {
                memory: SoundMemory {
                    resampler: t.state,
                    ..memory
                },
                len: t.frames * (channels * 2),
                clipped: 0,
            }
        }
        StageKind::DcBlock(d) => {
            let t = d.process(input, out, channels, memory.filter);
            filtered(memory, len, t)
        }
        StageKind::Biquad(f) => {
            let t = f.process(input, out, channels, memory.filter);
            filtered(memory, len, t)
        }
    }
}

// A filter's turn: as many bytes as reached it.
fn filtered(memory: SoundMemory, len: usize, t: Filtered) -> Applied
    ensures { result ≡ record { memory = record memory { filter = t.memory }; len = len; clipped = t.clipped } }
{
    Applied {
        memory: SoundMemory {
            filter: t.memory,
            ..memory
        },
        len,
        clipped: t.clipped,
    }
}

// What a stage with an even i reads.
fn even_source<'a>(i: usize, n: usize, block: &'a [u8], b: &'a [u8]) -> &'a [u8]
    requires { (i ≡ 0 → ⊥) → n ≤ length b.now }
    ensures { result.now ≡ even_source i n block.now b.now }
{
    if i == 0 { block } else { &b[..n] }
}

// A step from what stage i + 1 reads to its half.
// Kept: five parameters in place of a struct of the two halves, which each turn would take apart again: it reads one and writes the other.
pub fn between_halves<R, F: FnOnce(&[u8], &mut [u8]) -> R>(
    i: usize,
    n: usize,
    block: &[u8],
    a: &mut [u8],
    b: &mut [u8],
    step: F,
) -> R
    requires { TurnAsks i n block.now (halves a.old b.old) (StepAsks F.FnOnce step) }
    ensures { TurnDoes i n block.now (halves a.old b.old) (halves a.new b.new) (StepDoes F.FnOnce step result) }
{
    if i % 2 == 0 {
        step(even_source(i, n, block, b), a)
    } else {
        step(&a[..n], b)
    }
}

// The turn of a stage of any kind: what it makes stands at the front of its half.
pub fn turn(
    format: PcmFormat,
    s: Stage,
    i: usize,
    n: usize,
    block: &[u8],
    a: &mut [u8],
    b: &mut [u8],
) -> Applied
    requires { TurnAsks i n block.now (halves a.old b.old) (Takes format s) }
    ensures { TurnDoes i n block.now (halves a.old b.old) (halves a.new b.new) (Makes format s result.memory result.len result.clipped) }
{
    between_halves(
        i,
        n,
        block,
        a,
        b,
        |input, out| stage_turn(format, &s, input, out),
    )
}
