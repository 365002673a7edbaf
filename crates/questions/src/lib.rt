// The questions of a call, asked in one walk along the stages before any of them moves.
#![tactic(auto)]

ghost use Rattle.std.specs.Prelude.{◌≡◌, ◌≤◌, ◌<◌, Ok};
ghost use Rattle.pcm.specs.Formats.{OneOrTwo};
ghost use Rattle.stage.specs.Rooms.{Bounded, FewFrames};
ghost use Rattle.questions.specs.Walk.{size_verdict, block_frames, due_of, first_short, further, stepped, begun, copy_room, WalkFits, ShortFits, short_verdict, verdict_from};

use pcm::{Error, PcmFormat};
use stage::Stage;

// For which the walk asks: a block on the chain as it is, a block on the chain in any state, or a finish.
#[derive(Clone, Copy)]
pub enum Question {
    Block,
    AnyState,
    Finish,
}

// In frames, what a stage wants room for and what it delivers.
#[derive(Clone, Copy)]
pub struct Due {
    pub wanted: usize,
    pub delivered: usize,
}

// What a walk asks along the stages: for which call, and against a shorter half of so many bytes.
#[derive(Clone, Copy)]
pub struct Asking {
    pub question: Question,
    pub shorter: usize,
}

// What the walk has found before a stage: the format and the frames that reach it, the largest room wanted so far in bytes, and the first
// that the shorter half does not hold.
#[derive(Clone, Copy)]
pub struct Walk {
    pub format: PcmFormat,
    pub frames: usize,
    pub largest: usize,
    pub short: Option<usize>,
}

// The questions of a block's size, in their order.
// Kept: `0 < channels` written out, here and twice below: with the named fact of one or two channels each would ask more of its callers.
#[tactic(auto, unfolding(crate::specs::Walk::size_verdict))]
pub fn size_question(format: PcmFormat, size: usize) -> Result<(), Error>
    requires { 0 < format.channels }
    ensures { result ≡ size_verdict format size }
{
    let frame = format.frame_bytes();
    if size == 0 || size % frame != 0 {
        return Err(Error::InvalidGeometry);
    }
    if size / frame > pcm::MAX_FRAMES {
        return Err(Error::TooLong);
    }
    Ok(())
}

// The frames of a block; none of one whose size is refused.
#[tactic(auto, unfolding(crate::specs::Walk::block_frames))]
fn block_frames(format: PcmFormat, size: usize) -> usize
    requires { 0 < format.channels }
    ensures { result ≡ block_frames format size }
{
    match size_question(format, size) {
        Ok(()) => size / format.frame_bytes(),
        Err(_) => 0,
    }
}

// What a stage that so many frames reach wants and delivers.
// Kept: a match over the question. `due_of` asks by the same three cases, and a closure for each would hide which question it is.
#[tactic(auto, unfolding(crate::specs::Walk::due_of))]
fn stage_due(question: Question, s: Stage, frames: usize) -> Due
    requires { FewFrames frames × Bounded s.kind }
    ensures { result ≡ due_of question s frames }
{
    let wanted = stage::frames_wanted(s.kind, frames);
    match question {
        Question::Block => {
            if frames == 0 {
                return Due {
                    wanted: 0,
                    delivered: 0,
                };
            }
            Due {
                wanted,
                delivered: stage::frames_out(s, frames),
            }
        }
        Question::AnyState => Due {
            wanted,
            delivered: wanted,
        },
        Question::Finish => {
            let delivered = ending::frames_at_end(s, frames);
            Due {
                wanted: delivered,
                delivered,
            }
        }
    }
}

// The first room that the shorter half does not hold, where `room` is the next one wanted.
#[tactic(auto, unfolding(crate::specs::Walk::first_short))]
fn first_short(short: Option<usize>, room: usize, shorter: usize) -> Option<usize>
    ensures { result ≡ first_short shorter short room }
{
    if short.is_some() {
        return short;
    }
    if room <= shorter { None } else { Some(room) }
}

// The room that a block wants of a chain of no stages.
#[tactic(auto, unfolding(crate::specs::Walk::copy_room))]
fn copy_room(count: usize, room: usize) -> usize
    ensures { result ≡ copy_room count room }
{
    if count == 0 { room } else { 0 }
}

impl Asking {
    // The walk before the first of so many stages.
    #[tactic(auto, unfolding(crate::specs::Walk::begun, crate::specs::Walk::block_frames, crate::specs::Walk::size_verdict))]
    pub fn begun(self, format: PcmFormat, count: usize, size: usize) -> Walk
        requires { OneOrTwo format.channels }
        ensures { result ≡ begun format count size self.shorter }
    {
        let frames = block_frames(format, size);
        let room = copy_room(count, frames * format.frame_bytes());
        Walk {
            format,
            frames,
            largest: room,
            short: first_short(None, room, self.shorter),
        }
    }

    // One stage further, past one that suits.
    #[tactic(auto, unfolding(crate::specs::Walk::further, crate::specs::Walk::room_of, crate::specs::Walk::larger), using(crate::specs::laws::Walking::room_fits))]
    fn further(self, walk: Walk, s: Stage) -> Walk
        requires { WalkFits walk × Bounded s.kind }
        ensures { result ≡ further self.question self.shorter walk s }
    {
        let format = stage::format_after(walk.format, s.kind);
        let d = stage_due(self.question, s, walk.frames);
        let room = d.wanted * format.frame_bytes();
        Walk {
            format,
            frames: d.delivered,
            largest: walk.largest.max(room),
            short: first_short(walk.short, room, self.shorter),
        }
    }

    // One stage further: does it suit the format that reaches it, and what will it want and deliver?
    #[tactic(auto, unfolding(crate::specs::Walk::stepped), using(stage::specs::laws::Rooms::suits_bounded))]
    pub fn step(self, walk: Walk, s: Stage) -> Result<Walk, Error>
        requires { WalkFits walk }
        ensures { result ≡ stepped self.question self.shorter walk s }
    {
        if !stage::stage_suits(walk.format, s) {
            return Err(Error::InvalidFormat);
        }
        Ok(self.further(walk, s))
    }
}

// After the walk: room? Twice that of the first stage short is needed.
pub fn room_question(walk: Walk) -> Result<(), Error>
    requires { ShortFits walk.short }
    ensures { result ≡ short_verdict walk.short }
{
    match walk.short {
        Some(room) => Err(Error::BufferTooSmall { needed: 2 * room }),
        None => Ok(()),
    }
}

// After the walk that asks a block's questions: the size, in the chain's format, and room?
#[tactic(auto, unfolding(crate::specs::Walk::verdict_from))]
pub fn verdict(own: PcmFormat, format: PcmFormat, size: usize, walk: Walk) -> Result<(), Error>
    requires { (0 < own.channels) × ShortFits walk.short }
    ensures { result ≡ verdict_from own format size (Ok walk) }
{
    size_question(own, size)?;
    if own != format {
        return Err(Error::Unsupported);
    }
    room_question(walk)
}
