// What a block or finish call answers: its numbers and values, the counters, the halves in turn, and the output as a part of one (pipeline.rs).
#![tactic(auto)]

ghost use Rattle.std.specs.Prelude.{◌≡◌, ◌≤◌, ◌<◌, length};
ghost use Rattle.answers.specs.Answers.{counted_up, last_half, output_answer, front_of, output_of, sound_of, answer_told, counted_if, unstaged, next_stage};
ghost use Rattle.answers.specs.FinishAnswers.{finish_told};

use pcm::{Error, PcmFormat};

#[derive(Clone, Copy)]
pub enum Half {
    A = 0,
    B = 1,
}

// What an accepted call brought: sound, or nothing yet. A block's timestamp is copied through; a finish has none, `()`. `clipped` is how many
// samples the stages held back (document 02, Q-2).
#[derive(Clone, Copy)]
pub enum Answer<T> {
    Output {
        format: PcmFormat,
        timestamp: T,
        half: Half,
        len: usize,
        clipped: usize,
    },
    NothingYet {
        clipped: usize,
    },
}

impl<T: Copy> Answer<T> {
    // The part of the halves that holds the sound, empty where there is none yet, or its length exceeds that half.
    pub fn output<'a>(self, a: &'a [u8], b: &'a [u8]) -> &'a [u8]
        ensures { result.now ≡ sound_of self a.now b.now }
    {
        match self {
            Answer::Output { half, len, .. } => output(a, b, half, len),
            Answer::NothingYet { .. } => &[],
        }
    }
}

// Number and values of a block's answer. Outcome: 0 refused, 1 sound, 2 nothing yet; what follows it is zero but for sound, and `clipped` but
// for a refusal. Half: 0 is half a, 1 is half b.
#[repr(C)]
#[derive(Clone, Copy, Default)]
pub struct Told {
    pub number: u16,
    pub outcome: u8,
    pub needed: usize,
    pub rate: u32,
    pub channels: u16,
    pub timestamp: u64,
    pub half: u8,
    pub len: usize,
    pub clipped: usize,
}

impl From<Result<Answer<u64>, Error>> for Told {
    ghost from_gives = { λ answer told. told ≡ answer_told answer };

    // Number and values of each case.
    fn from(answer: Result<Answer<u64>, Error>) -> Told {
        match answer {
            Ok(
                Answer::Output {
                    format,
                    timestamp,
                    half,
                    len,
                    clipped,
                },
            ) => Told {
                outcome: 1,
                rate: format.rate,
                channels: format.channels,
                timestamp,
                half: half as u8,
                len,
                clipped,
                ..Told::default()
            },
            Ok(Answer::NothingYet { clipped }) => Told {
                outcome: 2,
                clipped,
                ..Told::default()
            },
            Err(e) => Told {
                number: e.number(),
                needed: e.needed(),
                ..Told::default()
            },
        }
    }
}

// Number and values of a finish's answer, as of a block. Kept beside `Told`, since C has a struct of its own for it, with no timestamp.
#[repr(C)]
#[derive(Clone, Copy, Default)]
pub struct FinishTold {
    pub number: u16,
    pub outcome: u8,
    pub needed: usize,
    pub rate: u32,
    pub channels: u16,
    pub half: u8,
    pub len: usize,
    pub clipped: usize,
}

impl From<Result<Answer<()>, Error>> for FinishTold {
    ghost from_gives = { λ answer told. told ≡ finish_told answer };

    // Number and values of each case.
    fn from(answer: Result<Answer<()>, Error>) -> FinishTold {
        match answer {
            Ok(
                Answer::Output {
                    format,
                    timestamp: (),
                    half,
                    len,
                    clipped,
                },
            ) => FinishTold {
                outcome: 1,
                rate: format.rate,
                channels: format.channels,
                half: half as u8,
                len,
                clipped,
                ..FinishTold::default()
            },
            Ok(Answer::NothingYet { clipped }) => FinishTold {
                outcome: 2,
                clipped,
                ..FinishTold::default()
            },
            Err(e) => FinishTold {
                number: e.number(),
                needed: e.needed(),
                ..FinishTold::default()
            },
        }
    }
}

// One more, up to 2^64 - 1.
pub fn count_up(n: u64) -> u64
    ensures { result ≡ counted_up n }
{
    n.saturating_add(1)
}

// One more 'nothing yet', where no bytes came out.
pub fn count_empty(n: u64, len: usize) -> u64
    ensures { result ≡ counted_if len n }
{
    if len == 0 { count_up(n) } else { n }
}

// The half that the last of `count` stages writes to.
fn last_half(count: usize) -> Half
    ensures { result ≡ last_half count }
{
    if count > 0 && count % 2 == 0 {
        Half::B
    } else {
        Half::A
    }
}

// The answer of an accepted call of which so many bytes came out and so many samples were held back.
pub fn answered<T: Copy>(
    format: PcmFormat,
    timestamp: T,
    count: usize,
    len: usize,
    clipped: usize,
) -> Answer<T>
    ensures { result ≡ output_answer format timestamp (last_half count) len clipped }
{
    if len == 0 {
        return Answer::NothingYet { clipped };
    }
    Answer::Output {
        format,
        timestamp,
        half: last_half(count),
        len,
        clipped,
    }
}

// No stages: the block is copied to a.
pub fn copy_unstaged(count: usize, block: &[u8], a: &mut [u8])
    requires { count ≡ 0 → length block.now ≤ length a.old }
    ensures { a.new ≡ unstaged count block.now a.old }
{
    if count == 0 {
        copying::copy_front(block, a);
    }
}

// The stage after stage i, of `count`; none after one that delivers 0 bytes.
pub fn next_stage(i: usize, count: usize, len: usize) -> usize
    requires { i < count }
    ensures { result ≡ next_stage i count len }
{
    if len == 0 { count } else { i + 1 }
}

// The output as a part of the half that holds it; empty if `len` exceeds that half.
pub fn output<'a>(a: &'a [u8], b: &'a [u8], half: Half, len: usize) -> &'a [u8]
    ensures { result.now ≡ output_of half len a.now b.now }
{
    match half {
        Half::A => front(a, len),
        Half::B => front(b, len),
    }
}

// The first `len` bytes; none if there are fewer.
pub fn front<'a>(s: &'a [u8], len: usize) -> &'a [u8]
    ensures { result.now ≡ front_of len s.now }
{
    s.get(..len).unwrap_or(&[])
}
