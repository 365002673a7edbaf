// The records of a chain's stages, and their bytes.
#![tactic(auto)]

ghost use Rattle.std.specs.Prelude.{◌≡◌, ◌≤◌, length};
ghost use Rattle.pcm.specs.Frames.{written};
ghost use Rattle.writing.specs.WritingBack.{record_of_stage, recipe_of};

use recipe::Record;
use stage::{Stage, StageKind};

// The record that a stage was opened from.
fn record_of(kind: StageKind) -> Record
    ensures { result ≡ record_of_stage kind }
{
    match kind {
        StageKind::Gain(g) => Record::Gain { q15: g.q15 },
        StageKind::MonoToStereo => Record::MonoToStereo,
        StageKind::StereoToMono => Record::StereoToMono,
        StageKind::Resample(r) => Record::Resample {
            in_rate: r.in_rate,
            out_rate: r.out_rate,
        },
        StageKind::DcBlock(b) => Record::DcBlock { corner: b.corner },
        StageKind::Biquad(b) => Record::Biquad {
            rate: b.rate,
            bits: b.bits,
        },
    }
}

// How many bytes the stages take.
#[tactic(auto, unfolding(crate::specs::WritingBack::recipe_of), using(crate::proofs::WritingBack::size_next, crate::proofs::WritingBack::record_small))]
pub fn recipe_size(stages: &[Stage]) -> usize
    requires { length stages.now ≤ 8 }
    ensures { result ≡ length (recipe_of stages.now) }
{
    let mut size: usize = 0;
    for s in stages {
        size += record_of(s.kind).size();
    }
    size
}

// The records of the stages, one after another, at the front of out.
#[tactic(auto, unfolding(crate::specs::WritingBack::recipe_of), using(crate::proofs::WritingBack::next_within))]
pub fn write_stages(stages: &[Stage], out: &mut [u8])
    requires { length (recipe_of stages.now) ≤ length out.old }
    ensures { out.new ≡ written (recipe_of stages.now) out.old }
{
    let mut at: usize = 0;
    for s in stages {
        let next = record_of(s.kind);
        next.write(&mut out[at..]);
        at += next.size();
    }
}
