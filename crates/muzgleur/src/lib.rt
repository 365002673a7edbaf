// The proved calls on a chain that the caller keeps as plain words. None requires anything of its caller. `muzgleur_c` exports them to C and Rust.
#![tactic(auto)]

ghost use Rattle.std.specs.Prelude.{◌≡◌};
ghost use Rattle.pipeline.specs.Opening.{open_call};
ghost use Rattle.pipeline.specs.Reset.{output_format, reset_call};
ghost use Rattle.pipeline.specs.WritingBack.{write_call, write_told};
ghost use Rattle.block.specs.BlockCall.{block_call, scratch_bytes};
ghost use Rattle.chain_words.specs.Layout.{stands, chain_of_words};
ghost use Rattle.chain_words.specs.Kept.{SettingsStay};
ghost use Rattle.finish.specs.FinishCall.{finish_call};
ghost use Rattle.room.specs.Room.{block_room, finish_room, room_told};
ghost use Rattle.chains.specs.Words.{reset_outcome};
ghost use Rattle.muzgleur.specs.Results.{open_outcome, block_outcome, finish_outcome, finish_words, counter_result, format_result, scratch_result};

use answers::{FinishTold, Told};
use chain_words::CHAIN_WORDS;
use pcm::{Error, PcmFormat, Valued};
use pipeline::{Pipeline, WriteTold};
use room::RoomTold;

// In each, `number` is 0 or the refusal's, and a value that there is not is 0.
#[repr(C)]
#[derive(Clone, Copy)]
pub struct CounterResult {
    pub number: u16,
    pub blocks: u64,
    pub empty_blocks: u64,
}

#[repr(C)]
#[derive(Clone, Copy)]
pub struct Format {
    pub rate: u32,
    pub channels: u16,
}

#[repr(C)]
#[derive(Clone, Copy)]
pub struct ScratchResult {
    pub number: u16,
    pub value: usize,
}

impl From<Result<usize, Error>> for ScratchResult {
    ghost from_gives = { λ answer told. told ≡ scratch_result answer };

    // As `Valued`, in C's layout.
    fn from(answer: Result<usize, Error>) -> ScratchResult {
        let told = Valued::from(answer);
        ScratchResult {
            number: told.number,
            value: told.value,
        }
    }
}

// The chain of a recipe at the front of the words. A refusal, too few words among them, alters none.
pub fn muzgleur_open(rate: u32, channels: u16, recipe: &[u8], chain: &mut [u32]) -> u16
    ensures all { record { number = result; words = chain.new } ≡ open_outcome chain.old (open_call (record { rate = rate; channels = channels }) recipe.now) }
    ensures chain { result ≡ 0 → open_call (record { rate = rate; channels = channels }) recipe.now ≡ Ok (chain_of_words chain.new) }
{
    let Some(words) = chain.first_chunk_mut::<CHAIN_WORDS>() else {
        return 1;
    };
    match Pipeline::open(PcmFormat { rate, channels }, recipe) {
        Ok(made) => {
            chain_words::put_chain(words, made);
            0
        }
        Err(e) => e.number(),
    }
}

// The output, where there is one, stands at the front of the half named, and the words stand for the chain afterwards; only counters
// and memories are altered. A refusal alters nothing. Words that stand for no chain, too few among them, are 1.
pub fn muzgleur_block(
    chain: &mut [u32],
    rate: u32,
    channels: u16,
    timestamp: u64,
    sound: &[u8],
    a: &mut [u8],
    b: &mut [u8],
) -> Told
    ensures all { record { result = result; chain = chain_of_words chain.new; a = a.new; b = b.new } ≡ block_outcome (block_call (chain_of_words chain.old) (record { rate = rate; channels = channels }) timestamp sound.now a.old b.old) }
    ensures words { (result.outcome ≡ 0 → chain.new ≡ chain.old) × SettingsStay chain.old chain.new }
{
    let Some(words) = chain.first_chunk_mut::<CHAIN_WORDS>() else {
        return Told::from(Err(Error::InvalidFormat));
    };
    let format = PcmFormat { rate, channels };
    Told::from(block::call(words, format, timestamp, sound, a, b))
}

// The end of the stream: each resampler's last frame, where an output falls on it, runs on through the later stages. The output, where
// there is one, stands at the front of the half named, and the words stand for the chain with its sound memory cleared and its counters
// as they were. A refusal alters nothing. A stage can deliver more here than of any block before: halves by `muzgleur_scratch_bytes`
// need not suffice; `muzgleur_finish_room` knows.
pub fn muzgleur_finish(chain: &mut [u32], a: &mut [u8], b: &mut [u8]) -> FinishTold
    ensures all { record { result = result; chain = chain_of_words chain.new; a = a.new; b = b.new } ≡ finish_outcome (finish_call (chain_of_words chain.old) a.old b.old) }
    ensures words { chain.new ≡ finish_words result.outcome chain.old }
{
    let Some(words) = chain.first_chunk_mut::<CHAIN_WORDS>() else {
        return FinishTold::from(Err(Error::InvalidFormat));
    };
    FinishTold::from(finish::call(words, a, b))
}

// The sound memory cleared, the counters left alone. Words that stand for no chain are 1, and stay.
pub fn muzgleur_reset(chain: &mut [u32]) -> u16
    ensures all { record { number = result; words = chain.new } ≡ reset_outcome chain.old }
    ensures chain { chain_of_words chain.new ≡ reset_call (chain_of_words chain.old) }
{
    let Some(words) = chain.first_chunk_mut::<CHAIN_WORDS>() else {
        return Error::InvalidFormat.number();
    };
    match chains::reset(words) {
        Ok(()) => 0,
        Err(e) => e.number(),
    }
}

// How many blocks were accepted, and how many of them brought nothing.
pub fn muzgleur_counters(chain: &[u32]) -> CounterResult
    ensures { result ≡ counter_result (stands chain.now) (chain_of_words chain.now) }
{
    let own = chain_words::chain_of(chain);
    let number = if chain_words::stand(chain) { 0 } else { 1 };
    CounterResult {
        number,
        blocks: own.blocks,
        empty_blocks: own.empty_blocks,
    }
}

// The format that leaves the last stage; zeros where the words stand for no chain.
pub fn muzgleur_output_format(chain: &[u32]) -> Format
    ensures { result ≡ format_result (output_format (chain_of_words chain.now)) }
{
    let format = chain_words::chain_of(chain).output_format();
    Format {
        rate: format.rate,
        channels: format.channels,
    }
}

// Twice the bytes of a half: two equal halves of half the figure each are enough for any block of `size` bytes, in any state.
pub fn muzgleur_scratch_bytes(chain: &[u32], size: usize) -> ScratchResult
    ensures { result ≡ scratch_result (scratch_bytes (chain_of_words chain.now) size) }
{
    let Some(words) = chain.first_chunk::<CHAIN_WORDS>() else {
        return ScratchResult::from(Err(Error::InvalidFormat));
    };
    ScratchResult::from(block::scratch_of(words, size))
}

// What a block of so many frames in the chain's format will bring, whatever its bytes: the frames that leave the last stage, 0 where that
// would be 'nothing yet', and the bytes of each of the smallest two equal halves that are accepted.
pub fn muzgleur_block_room(chain: &[u32], frames: usize) -> RoomTold
    ensures { result ≡ room_told (block_room (chain_of_words chain.now) frames) }
{
    let Some(words) = chain.first_chunk::<CHAIN_WORDS>() else {
        return RoomTold::from(Err(Error::InvalidFormat));
    };
    RoomTold::from(room::block_room_of(words, frames))
}

// The same of a finish; where nothing is due both are 0.
pub fn muzgleur_finish_room(chain: &[u32]) -> RoomTold
    ensures { result ≡ room_told (finish_room (chain_of_words chain.now)) }
{
    let Some(words) = chain.first_chunk::<CHAIN_WORDS>() else {
        return RoomTold::from(Err(Error::InvalidFormat));
    };
    RoomTold::from(room::finish_room_of(words))
}

// The recipe's bytes, without its notes, at the front of out; bytes past them stay.
pub fn muzgleur_write_recipe(chain: &[u32], out: &mut [u8]) -> WriteTold
    ensures { (result ≡ write_told (write_call (chain_of_words chain.now) out.old).answer) × (out.new ≡ (write_call (chain_of_words chain.now) out.old).out) }
{
    let own = chain_words::chain_of(chain);
    WriteTold::from(own.write_recipe(out))
}
