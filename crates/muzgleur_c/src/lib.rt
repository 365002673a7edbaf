// The static library for programs in C and Rust: the calls of `muzgleur`, exported under their names. None requires anything of its caller.
// Kept: each call again, since a library cannot be a static library too, and crates stand above `muzgleur` (the C interface).
#![tactic(auto)]

ghost use Rattle.std.specs.Prelude.{◌≡◌};
ghost use Rattle.pipeline.specs.Opening.{open_call};
ghost use Rattle.pipeline.specs.Reset.{output_format, reset_call};
ghost use Rattle.pipeline.specs.WritingBack.{write_call, write_told};
ghost use Rattle.block.specs.BlockCall.{block_call, scratch_bytes};
ghost use Rattle.chain_words.specs.Layout.{stands, chain_of_words};
ghost use Rattle.chain_words.specs.Kept.{SettingsStay};
ghost use Rattle.finish.specs.FinishCall.{finish_call};
ghost use Rattle.room.specs.Room.{block_room, finish_room, room_told};
ghost use Rattle.chains.specs.Words.{reset_outcome};
ghost use Rattle.muzgleur.specs.Results.{open_outcome, block_outcome, counter_result, format_result, scratch_result, finish_outcome, finish_words};

use answers::{FinishTold, Told};
use muzgleur::{CounterResult, Format, ScratchResult};
use pipeline::WriteTold;
use room::RoomTold;

// The chain of a recipe at the front of the words. A refusal, too few words among them, alters none.
#[unsafe(no_mangle)]
pub extern "C" fn muzgleur_open(rate: u32, channels: u16, recipe: &[u8], chain: &mut [u32]) -> u16
    ensures all { record { number = result; words = chain.new } ≡ open_outcome chain.old (open_call (record { rate = rate; channels = channels }) recipe.now) }
    ensures chain { result ≡ 0 → open_call (record { rate = rate; channels = channels }) recipe.now ≡ Ok (chain_of_words chain.new) }
{
    muzgleur::muzgleur_open(rate, channels, recipe, chain)
}

// The output, where there is one, stands at the front of the half named, and the words stand for the chain afterwards; only counters
// and memories are altered. A refusal alters nothing. Words that stand for no chain, too few among them, are 1.
#[unsafe(no_mangle)]
pub extern "C" fn muzgleur_block(
    chain: &mut [u32],
    rate: u32,
    channels: u16,
    timestamp: u64,
    sound: &[u8],
    a: &mut [u8],
    b: &mut [u8],
) -> Told
    ensures all { record { result = result; chain = chain_of_words chain.new; a = a.new; b = b.new } ≡ block_outcome (block_call (chain_of_words chain.old) (record { rate = rate; channels = channels }) timestamp sound.now a.old b.old) }
    ensures words { (result.outcome ≡ 0 → chain.new ≡ chain.old) × SettingsStay chain.old chain.new }
{
    muzgleur::muzgleur_block(chain, rate, channels, timestamp, sound, a, b)
}

// The end of the stream: each resampler's last frame, where an output falls on it, runs on through the later stages. The output, where
// there is one, stands at the front of the half named, and the words stand for the chain with its sound memory cleared and its counters
// as they were. A refusal alters nothing. A stage can deliver more here than of any block before: halves by `muzgleur_scratch_bytes`
// need not suffice; `muzgleur_finish_room` knows.
#[unsafe(no_mangle)]
pub extern "C" fn muzgleur_finish(chain: &mut [u32], a: &mut [u8], b: &mut [u8]) -> FinishTold
    ensures all { record { result = result; chain = chain_of_words chain.new; a = a.new; b = b.new } ≡ finish_outcome (finish_call (chain_of_words chain.old) a.old b.old) }
    ensures words { chain.new ≡ finish_words result.outcome chain.old }
{
    muzgleur::muzgleur_finish(chain, a, b)
}

// The sound memory cleared, the counters left alone. Words that stand for no chain are 1, and stay.
#[unsafe(no_mangle)]
pub extern "C" fn muzgleur_reset(chain: &mut [u32]) -> u16
    ensures all { record { number = result; words = chain.new } ≡ reset_outcome chain.old }
    ensures chain { chain_of_words chain.new ≡ reset_call (chain_of_words chain.old) }
{
    muzgleur::muzgleur_reset(chain)
}

// How many blocks were accepted, and how many of them brought nothing.
#[unsafe(no_mangle)]
pub extern "C" fn muzgleur_counters(chain: &[u32]) -> CounterResult
    ensures { result ≡ counter_result (stands chain.now) (chain_of_words chain.now) }
{
    muzgleur::muzgleur_counters(chain)
}

// The format that leaves the last stage; zeros where the words stand for no chain.
#[unsafe(no_mangle)]
pub extern "C" fn muzgleur_output_format(chain: &[u32]) -> Format
    ensures { result ≡ format_result (output_format (chain_of_words chain.now)) }
{
    muzgleur::muzgleur_output_format(chain)
}

// Twice the bytes of a half: two equal halves of half the figure each are enough for any block of `size` bytes, in any state.
#[unsafe(no_mangle)]
pub extern "C" fn muzgleur_scratch_bytes(chain: &[u32], size: usize) -> ScratchResult
    ensures { result ≡ scratch_result (scratch_bytes (chain_of_words chain.now) size) }
{
    muzgleur::muzgleur_scratch_bytes(chain, size)
}

// What a block of so many frames in the chain's format will bring, whatever its bytes: the frames that leave the last stage, 0 where that
// would be 'nothing yet', and the bytes of each of the smallest two equal halves that are accepted.
#[unsafe(no_mangle)]
pub extern "C" fn muzgleur_block_room(chain: &[u32], frames: usize) -> RoomTold
    ensures { result ≡ room_told (block_room (chain_of_words chain.now) frames) }
{
    muzgleur::muzgleur_block_room(chain, frames)
}

// The same of a finish; where nothing is due both are 0.
#[unsafe(no_mangle)]
pub extern "C" fn muzgleur_finish_room(chain: &[u32]) -> RoomTold
    ensures { result ≡ room_told (finish_room (chain_of_words chain.now)) }
{
    muzgleur::muzgleur_finish_room(chain)
}

// The recipe's bytes, without its notes, at the front of out; bytes past them stay.
#[unsafe(no_mangle)]
pub extern "C" fn muzgleur_write_recipe(chain: &[u32], out: &mut [u8]) -> WriteTold
    ensures { (result ≡ write_told (write_call (chain_of_words chain.now) out.old).answer) × (out.new ≡ (write_call (chain_of_words chain.now) out.old).out) }
{
    muzgleur::muzgleur_write_recipe(chain, out)
}
