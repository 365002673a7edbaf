// The room known beforehand (document 02, Q-5): what a block or a finish will bring, and the smallest halves that hold it. No sound is touched,
// and no room is lent.
#![tactic(auto)]

ghost use Rattle.std.specs.Prelude.{◌≡◌, ◌≤◌};
ghost use Rattle.chains.specs.Chains.{Headed};
ghost use Rattle.room.specs.Asked.{asked_frames, asked_bytes};
ghost use Rattle.room.specs.Room.{found, if_legal, block_room, finish_room, room_told, block_room_told, finish_room_told};

use chains::{Chain, Head};
use pcm::{Error, PcmFormat};
use pipeline::Pipeline;
use questions::{Asking, Question, Walk};

// The frames that leave the last stage, 0 where that would be 'nothing yet', and the bytes of each of the smallest two equal halves.
#[derive(Clone, Copy)]
pub struct Room {
    pub frames: usize,
    pub half: usize,
}

impl From<Walk> for Room {
    ghost from_gives = { λ walk known. known ≡ record { frames = walk.frames; half = walk.largest } };

    // What a walk has found that came to its end.
    fn from(walk: Walk) -> Room {
        Room {
            frames: walk.frames,
            half: walk.largest,
        }
    }
}

// Number and values of it: a value that there is not is 0.
#[repr(C)]
#[derive(Clone, Copy)]
pub struct RoomTold {
    pub number: u16,
    pub frames: usize,
    pub half: usize,
}

impl From<Result<Room, Error>> for RoomTold {
    ghost from_gives = { λ answer told. told ≡ room_told answer };

    // Number and values of each case.
    fn from(answer: Result<Room, Error>) -> RoomTold {
        match answer {
            Ok(known) => RoomTold {
                number: 0,
                frames: known.frames,
                half: known.half,
            },
            Err(e) => RoomTold {
                number: e.number(),
                frames: 0,
                half: 0,
            },
        }
    }
}

// So many frames, or 8,193 where there are more: their bytes fit a word.
fn asked_frames(frames: usize) -> usize
    ensures { result ≡ asked_frames frames }
{
    frames.min(pcm::MAX_FRAMES + 1)
}

// The bytes of a block of so many frames, as its questions are asked.
#[tactic(auto, using(crate::specs::laws::Asked::asked_most))]
pub fn asked_bytes(format: PcmFormat, frames: usize) -> usize
    requires { format.channels ≤ 2 }
    ensures { result ≡ asked_bytes format frames }
{
    asked_frames(frames) * format.frame_bytes()
}

// What the walk that asks finds of a call in which `size` bytes arrive.
#[tactic(auto, using(crate::specs::laws::Asked::walked_found))]
fn walked<C: Chain>(chain: &C, own: Head, question: Question, size: usize) -> Result<Walk, Error>
    requires { Headed (C.chain chain.now) own }
    ensures { result ≡ if_legal (C.chain chain.now) (found question (C.chain chain.now) size) }
{
    let asking = Asking {
        question,
        shorter: 0,
    };
    let start = asking.begun(own.format, own.count, size);
    block::walked(chain, own, asking, start)
}

// What a block of so many frames will bring to a chain, however it is kept, whatever its bytes.
pub fn block_room_of<C: Chain>(chain: &C, frames: usize) -> Result<Room, Error>
    ensures { result ≡ block_room (C.chain chain.now) frames }
{
    let own = chain.head()?;
    let size = asked_bytes(own.format, frames);
    let walk = walked(chain, own, Question::Block, size)?;
    questions::size_question(own.format, size)?;
    Ok(walk.into())
}

// The same of a chain by value, as document 01 carries it.
#[tactic(auto, using(crate::proofs::Telling::block_told_lem))]
pub fn block_room(chain: Pipeline, frames: usize) -> Result<Room, Error>
    ensures all { result ≡ block_room chain frames }
    ensures told { room_told result ≡ block_room_told chain frames }
{
    block_room_of(&chain, frames)
}

// What a finish will bring to a chain, however it is kept.
pub fn finish_room_of<C: Chain>(chain: &C) -> Result<Room, Error>
    ensures { result ≡ finish_room (C.chain chain.now) }
{
    let own = chain.head()?;
    let walk = walked(chain, own, Question::Finish, 0)?;
    Ok(walk.into())
}

// The same of a chain by value, as document 01 carries it.
#[tactic(auto, using(crate::proofs::Telling::finish_told_lem))]
pub fn finish_room(chain: Pipeline) -> Result<Room, Error>
    ensures all { result ≡ finish_room chain }
    ensures told { room_told result ≡ finish_room_told chain }
{
    finish_room_of(&chain)
}
