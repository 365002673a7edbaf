// A chain as calls see it, however it is kept: as a `Pipeline`, or as words in the caller's memory, of which one stage at a time is read
// and only what it remembers is written back.
#![tactic(auto)]

ghost use Rattle.std.specs.Prelude.{◌≡◌};
ghost use Rattle.pcm.specs.Refusals.{number_of};
ghost use Rattle.pipeline.specs.Reset.{reset_call};
ghost use Rattle.chain_words.specs.Kept.{sound_words, SettingsStay};
ghost use Rattle.chain_words.specs.Layout.{chain_of_words};
ghost use Rattle.chains.specs.Words.{reset_outcome};
ghost use Rattle.chains.specs.laws.Words.{stay_same, stay_on};

use answers::Answer;
use chain_words::Words;
use pcm::{Error, PcmFormat};
use pipeline::Pipeline;
use stage::Stage;

// The format that reaches the first stage, and how many stages are in use.
#[derive(Clone, Copy)]
pub struct Head {
    pub format: PcmFormat,
    pub count: usize,
}

// What a call on a chain by value gives back: the chain afterwards and the answer.
#[derive(Clone, Copy)]
pub struct Outcome<T> {
    pub chain: Pipeline,
    pub answer: Result<Answer<T>, Error>,
}

pub trait Chain {
    ghost use Rattle.std.specs.Prelude.{◌≡◌, ◌≤◌, length, set};
    ghost use Rattle.pipeline.specs.declared.Pipeline.{Pipeline};
    ghost use Rattle.pipeline.specs.Reset.{reset_call};
    ghost use Rattle.chains.specs.Chains.{head_of, InUse, stage_in, Follows, with_stages, counted};

    // The chain that is kept.
    ghost chain: { Self → Pipeline };

    // What calls leave alone beside it.
    ghost stays: { Self → Self → Type 0 };

    // What a reset leaves.
    ghost cleared: { Self → Self };

    // Format and count; a chain of other than at most eight stages, or of a format that is not allowed, is refused with 1.
    fn head(&self) -> Result<Head, Error>
        ensures is { result ≡ head_of (chain self.now) }
        ensures eight { length (chain self.now).stages ≡ 8 };

    fn stage(&self, i: usize) -> Stage
        requires { InUse (chain self.now) i }
        ensures { result ≡ stage_in (chain self.now) i };

    // The stage as its turn left it: what a stage of its kind remembers is kept.
    fn hold(&mut self, i: usize, s: Stage)
        requires used { InUse (chain self.old) i }
        requires follows { Follows (stage_in (chain self.old) i) s }
        ensures is { chain self.new ≡ with_stages (chain self.old) (set (chain self.old).stages i s) }
        ensures rest { stays self.old self.new };

    // One block more, of which `len` bytes came out.
    fn count_block(&mut self, len: usize)
        requires { (chain self.old).count ≤ 8 }
        ensures is { chain self.new ≡ counted (chain self.old) len }
        ensures rest { stays self.old self.new };

    // The sound memory of each stage cleared, the counters left alone.
    fn clear(&mut self)
        requires { (chain self.old).count ≤ 8 }
        ensures is { chain self.new ≡ reset_call (chain self.old) }
        ensures rest { self.new ≡ cleared self.old };

    ghost stays_same: { (x : Self) → stays x x };

    ghost stays_on: { (x y z : Self) → stays x y → stays y z → stays x z };
}

impl Chain for Pipeline {
    ghost chain = { λ c. c };

    ghost stays = { λ c d. Unit {0} };

    ghost cleared = { reset_call };

    ghost stays_same = { λ x. tt };

    ghost stays_on = { λ x y z p q. tt };

    // Asked by the places, so that it is known of them that there are eight.
    fn head(&self) -> Result<Head, Error> {
        let places = &self.stages[..];
        let count = self.count;
        let format = self.format;
        if count > places.len() || !format.allowed() {
            return Err(Error::InvalidFormat);
        }
        Ok(Head { format, count })
    }

    fn stage(&self, i: usize) -> Stage {
        self.stages[i]
    }

    #[tactic(auto, unfolding(crate::specs::Chains::with_stages))]
    fn hold(&mut self, i: usize, s: Stage) {
        if stage::remembers(s.kind) {
            self.stages[i] = s;
        }
    }

    #[tactic(auto, unfolding(crate::specs::Chains::counted))]
    fn count_block(&mut self, len: usize) {
        self.blocks = answers::count_up(self.blocks);
        self.empty_blocks = answers::count_empty(self.empty_blocks, len);
    }

    fn clear(&mut self) {
        *self = self.reset();
    }
}

impl Chain for Words {
    ghost chain = { chain_of_words };

    ghost stays = { SettingsStay };

    ghost cleared = { λ w. sound_words w (reset_call (chain_of_words w)) };

    ghost stays_same = { stay_same };

    ghost stays_on = { stay_on };

    #[tactic(auto, using(crate::specs::laws::Words::eight_at, crate::proofs::Words::head_at))]
    fn head(&self) -> Result<Head, Error> {
        let count = chain_words::count_of(self);
        let format = chain_words::format_of(self);
        if !chain_words::stand(self) || !format.allowed() {
            return Err(Error::InvalidFormat);
        }
        Ok(Head { format, count })
    }

    // Taken in by each caller, as `stage_words::stage_of` is.
    #[inline(always)]
    fn stage(&self, i: usize) -> Stage {
        chain_words::stage_at(self, i)
    }

    fn hold(&mut self, i: usize, s: Stage) {
        chain_words::put_held_at(self, i, s.kind, s.memory);
    }

    fn count_block(&mut self, len: usize) {
        let blocks = answers::count_up(chain_words::counter_at(self, 3));
        let empty_blocks = answers::count_empty(chain_words::counter_at(self, 5), len);
        chain_words::put_counters(self, blocks, empty_blocks);
    }

    fn clear(&mut self) {
        let own = chain_words::chain_of(self);
        let cleared = own.reset();
        chain_words::put_sound(self, cleared);
    }
}

// The sound memory cleared, the counters left alone. Words that stand for no chain are refused with 1, and stay.
#[tactic(auto, using(crate::proofs::Words::no_reset, crate::proofs::Words::few_of, chain_words::specs::laws::Chains::no_words))]
pub fn reset(words: &mut Words) -> Result<(), Error>
    ensures all { record { number = number_of result; words = words.new } ≡ reset_outcome words.old }
    ensures chain { chain_of_words words.new ≡ reset_call (chain_of_words words.old) }
{
    if !chain_words::stand(words) {
        return Err(Error::InvalidFormat);
    }
    words.clear();
    Ok(())
}
