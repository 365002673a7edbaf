// A chain as plain words in the caller's memory: eight words for the chain, then eighteen for each of its eight stages.
#![tactic(auto)]

ghost use Rattle.std.specs.Prelude.{◌≡◌, ◌&&◌, leb, [], ◌∷◌, ◌+◌, ◌*◌, ◌/◌, ◌%◌, ◌≤◌, ◌<◌, ◌^◌, length, take};
ghost use Rattle.std.proofs.lemmas.List.Edits.{sets};
ghost use Rattle.pcm.specs.Samples.{All};
ghost use Rattle.pcm.specs.Frames.{written};
ghost use Rattle.recipe.specs.Records.{of_stage};
ghost use Rattle.pipeline.specs.WritingBack.{stages_of};
ghost use Rattle.stage_words.specs.Layout.{filter_words, state_words, memory_words, words_of_stage, held_at, held_words, word};
ghost use Rattle.stage_words.specs.Storable.{TwoSamples, HeldFilter, HeldStage, HeldMemory, HeldBy, Small};
ghost use Rattle.chain_words.specs.Kept.{kept_words, sound_words};
ghost use Rattle.chain_words.specs.Layout.{place_of, counter_words, head_words, words_of, stage_at, format_of, counter_at, chain_at, kinds_known, stands, no_chain, chain_of_words};

use filters::FilterMemory;
use pcm::PcmFormat;
use pipeline::Pipeline;
use rates::ResamplerState;
use stage::{SoundMemory, Stage, StageKind};

// The words of a chain.
pub const CHAIN_WORDS: usize = 152;

pub type Words = [u32; CHAIN_WORDS];

// ---- the stage at a place
// Its eighteen words.
// Kept: `i < 8` in each contract: the place is a number that the walk counts, and a type of eight of them would be taken apart at every use.
fn words_at(w: &[u32], i: usize) -> &[u32; 18]
    requires { (i < 8) × (152 ≤ length w.now) }
    ensures { result.now ≡ take 18 (place_of w.now i) }
{
    let place = 8 + 18 * i;
    w[place..place + 18].as_array().unwrap()
}

// Taken in by each caller, as `stage_words::stage_of` is.
#[inline(always)]
pub fn stage_at(w: &[u32], i: usize) -> Stage
    requires { (i < 8) × (152 ≤ length w.now) }
    ensures { result ≡ stage_at w.now i }
{
    stage_words::stage_of(words_at(w, i))
}

pub fn put_stage_at(w: &mut [u32], i: usize, s: Stage)
    requires { (i < 8) × (152 ≤ length w.old) }
    ensures { (w.new ≡ sets w.old (8 + 18 * i) (words_of_stage s)) × HeldStage s }
{
    let place = 8 + 18 * i;
    w[place..place + 7].copy_from_slice(&stage_words::setting_words(s.kind));
    put_memory_at(w, i, s.memory);
}

// The whole memory; kind and settings stay.
pub fn put_memory_at(w: &mut [u32], i: usize, m: SoundMemory)
    requires { (i < 8) × (152 ≤ length w.old) }
    ensures { (w.new ≡ sets w.old (8 + 18 * i + 7) (memory_words m)) × HeldFilter m.filter × TwoSamples m.resampler.last }
{
    put_filter_at(w, i, m.filter);
    put_state_at(w, i, m.resampler);
}

// Only what a stage of this kind remembers.
#[tactic(auto, unfolding(stage_words::specs::Layout::held_at, stage_words::specs::Layout::held_words))]
pub fn put_held_at(w: &mut [u32], i: usize, kind: StageKind, m: SoundMemory)
    requires { (i < 8) × (152 ≤ length w.old) }
    ensures { (w.new ≡ sets w.old (8 + 18 * i + held_at kind) (held_words kind m)) × HeldBy kind m }
{
    match kind {
        StageKind::Resample(_) => put_state_at(w, i, m.resampler),
        StageKind::DcBlock(_) | StageKind::Biquad(_) => put_filter_at(w, i, m.filter),
        _ => {}
    }
}

fn put_filter_at(w: &mut [u32], i: usize, m: FilterMemory)
    requires { (i < 8) × (152 ≤ length w.old) }
    ensures { (w.new ≡ sets w.old (8 + 18 * i + 7) (filter_words m)) × HeldFilter m }
{
    let place = 8 + 18 * i + 7;
    w[place..place + 8].copy_from_slice(&stage_words::filter_words(m));
}

fn put_state_at(w: &mut [u32], i: usize, s: ResamplerState)
    requires { (i < 8) × (152 ≤ length w.old) }
    ensures { (w.new ≡ sets w.old (8 + 18 * i + 15) (state_words s)) × TwoSamples s.last }
{
    let place = 8 + 18 * i + 15;
    w[place..place + 3].copy_from_slice(&stage_words::state_words(s));
}

// ---- the chain
// The counter in the words i and i + 1.
// Kept: two words put together by hand, and parted in `put_counter`: no method does it with words of 32 bits.
pub fn counter_at(w: &[u32], i: usize) -> u64
    requires { i + 1 < length w.now }
    ensures { result ≡ counter_at w.now i }
{
    u64::from(w[i]) + 4294967296 * u64::from(w[i + 1])
}

// How many stages are in use.
pub fn count_of(w: &[u32]) -> usize
    requires { 152 ≤ length w.now }
    ensures { result ≡ word w.now 0 }
{
    w[0] as usize
}

pub fn format_of(w: &[u32]) -> PcmFormat
    requires { 152 ≤ length w.now }
    ensures { result ≡ format_of w.now }
{
    PcmFormat {
        rate: w[1],
        channels: (w[2] % 65536) as u16,
    }
}

// Kept: a `for` over stages not in use in place of `std::array::from_fn`, of which the proof did not close.
fn stages_of(w: &Words) -> [Stage; 8]
    ensures { result ≡ (chain_at w.now).stages }
{
    let mut stages = [Stage::new(StageKind::MonoToStereo); 8];
    for i in 0..8 {
        stages[i] = stage_at(w, i);
    }
    stages
}

fn chain_at(w: &Words) -> Pipeline
    ensures { (result ≡ chain_at w.now) × All Small result.stages }
{
    Pipeline {
        stages: stages_of(w),
        count: count_of(w),
        format: format_of(w),
        blocks: counter_at(w, 3),
        empty_blocks: counter_at(w, 5),
    }
}

// Kept: a range in place of a kind: `recipe::Kind` is made of 16 bits, and here nothing would read it.
fn kind_known(number: u32) -> bool
    ensures { result ≡ of_stage number }
{
    (1..=6).contains(&number)
}

// Are there at most eight stages in use, each of a kind that a recipe knows?
#[tactic(auto, using(crate::proofs::Chains::each_known, crate::proofs::Chains::some_unknown))]
fn kinds_known(w: &Words) -> bool
    ensures { result ≡ (leb (word w.now 0) 8 && kinds_known w.now 0 (word w.now 0)) }
{
    let count = count_of(w);
    if count > 8 {
        return false;
    }
    for i in 0..count {
        if !kind_known(w[8 + 18 * i]) {
            return false;
        }
    }
    true
}

// Do the words stand for a chain? Too few of them don't.
pub fn stand(w: &[u32]) -> bool
    ensures { result ≡ stands w.now }
{
    match w.first_chunk() {
        Some(words) => kinds_known(words),
        None => false,
    }
}

// What every call refuses with 1.
fn no_chain() -> Pipeline
    ensures { result ≡ no_chain }
{
    let unused = Stage::new(StageKind::MonoToStereo);
    Pipeline {
        stages: [unused; 8],
        count: 9,
        format: PcmFormat {
            rate: 0,
            channels: 0,
        },
        blocks: 0,
        empty_blocks: 0,
    }
}

// The chain that the words stand for; where they stand for none, one that every call refuses with 1.
// Kept: a chain in place of an `Option`, which is no plainer: every call refuses that chain with 1, so one definition serves all calls on words.
pub fn chain_of(w: &[u32]) -> Pipeline
    ensures { (result ≡ chain_of_words w.now) × All Small result.stages }
{
    match w.first_chunk() {
        Some(words) if stand(words) => chain_at(words),
        _ => no_chain(),
    }
}

fn put_counter(w: &mut [u32], i: usize, n: u64)
    requires { i + 1 < length w.old }
    ensures { w.new ≡ sets w.old i (n % 2 ^ 32 ∷ n / 2 ^ 32 ∷ []) }
{
    w[i] = (n % 4294967296) as u32;
    w[i + 1] = (n >> 32) as u32;
}

// Both counters; the rest of the chain stays.
pub fn put_counters(w: &mut [u32], blocks: u64, empty_blocks: u64)
    requires { 152 ≤ length w.old }
    ensures { w.new ≡ sets w.old 3 (counter_words blocks empty_blocks) }
{
    put_counter(w, 3, blocks);
    put_counter(w, 5, empty_blocks);
}

#[tactic(auto, unfolding(crate::specs::Layout::head_words))]
fn put_head(w: &mut [u32], chain: Pipeline)
    requires { 152 ≤ length w.old }
    ensures { w.new ≡ sets w.old 0 (head_words chain) }
{
    w[0] = (chain.count % 4294967296) as u32;
    w[1] = chain.format.rate;
    w[2] = u32::from(chain.format.channels);
    put_counters(w, chain.blocks, chain.empty_blocks);
    w[7] = 0;
}

// The chain at the front of the words; words past it stay.
pub fn put_chain(w: &mut [u32], chain: Pipeline)
    requires { 152 ≤ length w.old }
    ensures { (w.new ≡ written (words_of chain) w.old) × All HeldStage chain.stages }
{
    put_head(w, chain);
    for (i, s) in chain.stages.iter().enumerate() {
        put_stage_at(w, i, *s);
    }
}

// The memories of the stages in use and both counters, all that a block or a reset alters; every other word stays.
#[tactic(auto, unfolding(crate::specs::Kept::with_sound))]
pub fn put_sound(w: &mut [u32], chain: Pipeline)
    requires { (chain.count ≤ 8) × (152 ≤ length w.old) }
    ensures { (w.new ≡ sound_words w.old chain) × All HeldMemory (stages_of chain) }
{
    put_memories(w, &chain.stages[..chain.count]);
    put_counters(w, chain.blocks, chain.empty_blocks);
}

fn put_memories(w: &mut [u32], stages: &[Stage])
    requires { (length stages.now ≤ 8) × (152 ≤ length w.old) }
    ensures { (w.new ≡ kept_words w.old 0 stages.now) × All HeldMemory stages.now }
{
    for (i, s) in stages.iter().enumerate() {
        put_memory_at(w, i, s.memory);
    }
}
