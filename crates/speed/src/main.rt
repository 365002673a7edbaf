// A sound held in memory through a chain, block by block and many times over: what bench/chains times. Standard input holds the rate,
// the channels, the frames of a block and the number of passes, 32 bits each, low byte first, then the recipe.
#![tactic(auto)]

ghost use Rattle.std.specs.Prelude.{◌<◌, ◌≤◌};

use answers::Answer;
use pcm::{Error, PcmFormat};
use pipeline::Pipeline;

// One more number in a checksum of 32 bits.
fn summed(checksum: u32, n: u32) -> u32 {
    checksum.wrapping_mul(33).wrapping_add(n)
}

// Every byte in a checksum.
fn all_summed(checksum: u32, sound: &[u8]) -> u32 {
    sound
        .iter()
        .fold(checksum, |sum, x| summed(sum, u32::from(*x)))
}

// The length and the last byte in a checksum.
fn end_summed(checksum: u32, sound: &[u8]) -> u32 {
    let length = summed(checksum, (sound.len() % 4294967296) as u32);
    match sound.last() {
        Some(x) => summed(length, u32::from(*x)),
        None => length,
    }
}

// Frames that came out, a checksum, and samples that were held back.
#[derive(Clone, Copy, Default)]
struct Tally {
    frames: u64,
    checksum: u32,
    clipped: u64,
}

impl Tally {
    // An answer's output in the tally: every byte in the first pass, later its end.
    fn with(self, first: bool, answer: Result<Answer<u64>, Error>, a: &[u8], b: &[u8]) -> Tally {
        match answer {
            Ok(
                answer @ Answer::Output {
                    format,
                    len,
                    clipped,
                    ..
                },
            ) => {
                let out = answer.output(a, b);
                let checksum = end_summed(self.checksum, out);
                Tally {
                    frames: self
                        .frames
                        .wrapping_add((len / frame_bytes(format.channels)) as u64),
                    checksum: if first {
                        all_summed(checksum, out)
                    } else {
                        checksum
                    },
                    clipped: self.clipped.wrapping_add(clipped as u64),
                }
            }
            Ok(Answer::NothingYet { clipped }) => Tally {
                checksum: summed(self.checksum, 0),
                clipped: self.clipped.wrapping_add(clipped as u64),
                ..self
            },
            Err(e) => Tally {
                checksum: summed(self.checksum, u32::from(e.number())),
                ..self
            },
        }
    }

    // Frames and checksum; then, in a line of its own, the samples held back. A line that can't be written is passed over.
    fn print(self, rt: &impl Print) {
        let _ = println!(rt; "{} frames, checksum {}", self.frames, self.checksum);
        let _ = println!(rt; "{} clipped", self.clipped);
    }
}

// The bytes of a frame. Kept beside `PcmFormat::frame_bytes`, which is 0 where there are no channels: here it divides.
fn frame_bytes(channels: u16) -> usize
    ensures { (0 < result) × (result ≤ 4) }
{
    if channels == 2 { 4 } else { 2 }
}

// The next number of a linear congruential generator.
fn next(x: u32) -> u32 {
    x.wrapping_mul(1103515245).wrapping_add(12345) % 0x8000_0000
}

// Noise of even samples, the same each time. The source's stereo to mono, which rounds down, makes the same of it.
fn fill(sound: &mut [u8]) {
    let mut x = 1;
    for byte in sound {
        x = next(x);
        *byte = (x / 65536 % 256 / 2 * 2) as u8;
    }
}

// A chain, what came out of it so far, and the halves that are lent to its calls.
#[derive(Drop)]
struct Run {
    chain: Pipeline,
    tally: Tally,
    a: [u8; 65536],
    b: [u8; 65536],
}

impl Run {
    // The whole sound once, in blocks of `size` bytes.
    fn pass(&mut self, first: bool, size: usize, sound: &[u8])
        requires { 0 < size }
    {
        for part in sound.chunks(size) {
            let chain = self.chain;
            let done = block::process(chain, chain.format, 0, part, &mut self.a, &mut self.b);
            self.chain = done.chain;
            self.tally = self.tally.with(first, done.answer, &self.a, &self.b);
        }
    }
}

// 8,192 frames of noise through the chain, `times` times but at least once, and what came out.
fn play(rt: &impl Print, chain: Pipeline, times: u32, frames: usize)
    requires { (0 < frames) × (frames ≤ 8192) }
{
    let frame = frame_bytes(chain.format.channels);
    let mut sound = [0u8; 32768];
    fill(&mut sound);
    let mut run = Run {
        chain,
        tally: Tally::default(),
        a: [0; 65536],
        b: [0; 65536],
    };
    let sound = answers::front(&sound, 8192 * frame);
    run.pass(true, frames * frame, sound);
    for _ in 1..times {
        run.pass(false, frames * frame, sound);
    }
    run.tally.print(rt);
}

// The chain that a script asks for, and sound through it.
fn play_script(rt: &impl Print, head: &[u8; 16], recipe: &[u8]) {
    let rate = words::get_u32(head, 0);
    let channels = (words::get_u32(head, 4) % 65536) as u16;
    let frames = words::get_u32(head, 8).clamp(1, 8192);
    let times = words::get_u32(head, 12);
    let Ok(chain) = Pipeline::open(PcmFormat { rate, channels }, recipe) else {
        let _ = println!(rt; "refused");
        return;
    };
    play(rt, chain, times, frames as usize);
}

fn main(rt: HostRuntime) {
    let mut script = [0u8; 4096];
    // What could be read, also where a read fails.
    let count = io::read_full(0, &mut script);
    if let Some((head, recipe)) = script[..count].split_first_chunk() {
        play_script(&rt, head, recipe);
    }
}
