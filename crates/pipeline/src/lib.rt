// A chain of stages, carried by value (pipeline.rs): opened from a recipe and written back to it, without its notes.
#![tactic(auto)]

ghost use Rattle.std.specs.Prelude.{◌≡◌, length, replicate, []};
ghost use Rattle.pipeline.specs.Opening.{open_call, unused_stage, chain_of};
ghost use Rattle.writing.specs.WritingBack.{recipe_of};
ghost use Rattle.pipeline.specs.WritingBack.{stages_of, write_verdict, write_call, write_told, told_of_writing};
ghost use Rattle.pipeline.specs.Reset.{output_format, reset_call};

use pcm::{Error, PcmFormat};
use recipe::{Entry, Record, Records};
use stage::{Stage, StageKind};

// The stages in use are the first `count`; `format` is what reaches the first.
// Kept: an array and a count: a chain of more than eight stages is a value that every call refuses with 1, so no type may leave it out, and
// stages that are not in use are part of the value. A `Vec` would want a heap.
#[derive(Clone, Copy)]
pub struct Pipeline {
    pub stages: [Stage; 8],
    pub count: usize,
    pub format: PcmFormat,
    pub blocks: u64,
    pub empty_blocks: u64,
}

// Document 01's number, needed and length of a recipe that is written back.
#[repr(C)]
#[derive(Clone, Copy)]
pub struct WriteTold {
    pub number: u16,
    pub needed: usize,
    pub len: usize,
}

impl From<Result<usize, Error>> for WriteTold {
    ghost from_gives = { λ answer told. told ≡ write_told answer };

    // Number and values of each case.
    fn from(answer: Result<usize, Error>) -> WriteTold {
        match answer {
            Ok(len) => WriteTold {
                number: 0,
                needed: 0,
                len,
            },
            Err(e) => WriteTold {
                number: e.number(),
                needed: e.needed(),
                len: 0,
            },
        }
    }
}

// Eight places not in use.
fn no_stages() -> [Stage; 8]
    ensures { result ≡ replicate 8 unused_stage }
{
    let unused = Stage::new(StageKind::MonoToStereo);
    [unused; 8]
}

impl Pipeline {
    // The chain of a recipe, for sound of this format.
    pub fn open(format: PcmFormat, recipe: &[u8]) -> Result<Pipeline, Error>
        ensures { result ≡ open_call format recipe.now }
    {
        if !format.allowed() {
            return Err(Error::InvalidFormat);
        }
        let mut stages = no_stages();
        let mut reaching = format;
        let mut count: usize = 0;
        for left in (Records { left: recipe }) {
            let Entry::Stage(record) = Record::read(left)? else {
                continue;
            };
            let kind = opening::stage_of(reaching, count, record)?;
            stages[count] = Stage::new(kind);
            count += 1;
            reaching = stage::format_after(reaching, kind);
        }
        Ok(Pipeline {
            stages,
            count,
            format,
            blocks: 0,
            empty_blocks: 0,
        })
    }

    // The bytes that the chain was opened from, without their notes, at the front of out.
    #[tactic(auto, unfolding(crate::specs::WritingBack::write_call, crate::specs::WritingBack::write_verdict), using(pcm::specs::laws::Refusals::room_enough))]
    pub fn write_recipe(self, out: &mut [u8]) -> Result<usize, Error>
        ensures all { record { answer = result; out = out.new } ≡ write_call self out.old }
        ensures told { write_told result ≡ told_of_writing (write_verdict self (length out.old)) (length (recipe_of (stages_of self))) }
    {
        if self.count > 8 {
            return Err(Error::InvalidFormat);
        }
        let stages = &self.stages[..self.count];
        let needed = writing::recipe_size(stages);
        pcm::require_room(out, needed)?;
        writing::write_stages(stages, out);
        Ok(needed)
    }

    // The format that leaves the last stage.
    #[tactic(auto, unfolding(crate::specs::Reset::output_format), using(crate::proofs::ResetLaws::leaving_none, crate::proofs::ResetLaws::leaving_next, std::proofs::lemmas::List::take_all))]
    pub fn output_format(self) -> PcmFormat
        ensures { result ≡ output_format self }
    {
        if self.count > 8 {
            return self.format;
        }
        let mut leaving = self.format;
        for s in &self.stages[..self.count] {
            leaving = stage::format_after(leaving, s.kind);
        }
        leaving
    }

    // The sound memory of each stage cleared, the counters left alone.
    #[tactic(auto, unfolding(crate::specs::Reset::reset_call), using(crate::proofs::ResetLaws::cleared_none, crate::proofs::ResetLaws::cleared_next, crate::proofs::ResetLaws::cleared_all))]
    pub fn reset(self) -> Pipeline
        ensures { result ≡ reset_call self }
    {
        if self.count > 8 {
            return self;
        }
        let mut stages = self.stages;
        for s in &mut stages[..self.count] {
            *s = s.reset();
        }
        Pipeline { stages, ..self }
    }
}
