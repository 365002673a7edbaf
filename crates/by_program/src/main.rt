// Document 01, 'By program', and document 02's finish: what the calls answer. One line for each: what was asked, then 0 or the refusal's
// number, then bytes; and the last sample of what a finish delivers. Then rates divided by their greatest common divisor.
#![tactic(auto)]

use answers::Answer;
use pcm::{Error, PcmFormat};
use pipeline::Pipeline;
use rates::LinearResampler;

// A label, a refusal's number or 0, and a count of bytes. A line that can't be written is passed over, here and below.
fn line(rt: &impl Print, label: &str, number: u16, bytes: usize) {
    let _ = println!(rt; "{label}: {number} {bytes}");
}

// A label, 0, and 'nothing yet' in words: no output of length 0 looks the same.
fn nothing_yet(rt: &impl Print, label: &str) {
    let _ = println!(rt; "{label}: 0 nothing yet");
}

// What a block or finish call answers: the output's bytes, 'nothing yet' or the bytes needed.
fn answered<T: Copy>(rt: &impl Print, label: &str, answer: Result<Answer<T>, Error>) {
    match answer {
        Ok(Answer::Output { len, .. }) => line(rt, label, 0, len),
        Ok(Answer::NothingYet { .. }) => nothing_yet(rt, label),
        Err(e) => line(rt, label, e.number(), e.needed()),
    }
}

// The last sample of a sound, as a number from 0 on.
fn last_sample(rt: &impl Print, sound: &[u8]) {
    let Some(bytes) = sound.last_chunk() else {
        return;
    };
    let sample = u16::from_le_bytes(*bytes);
    let _ = println!(rt; "last sample: {sample}");
}

// The halves that are lent to a call.
#[derive(Drop)]
struct Halves<const A: usize, const B: usize> {
    a: [u8; A],
    b: [u8; B],
}

impl<const A: usize, const B: usize> Halves<A, B> {
    fn new() -> Self {
        Halves {
            a: [0; A],
            b: [0; B],
        }
    }

    // One block through a chain: its answer is told, and the chain goes on.
    fn block(&mut self, rt: &impl Print, label: &str, chain: Pipeline, sound: &[u8]) -> Pipeline {
        let done = block::process(chain, chain.format, 0, sound, &mut self.a, &mut self.b);
        answered(rt, label, done.answer);
        done.chain
    }

    // A finish: its answer and the output's last sample are told, and the chain goes on.
    fn finish(&mut self, rt: &impl Print, label: &str, chain: Pipeline) -> Pipeline {
        let done = finish::finish(chain, &mut self.a, &mut self.b);
        answered(rt, label, done.answer);
        if let Ok(answer) = done.answer {
            last_sample(rt, answer.output(&self.a, &self.b));
        }
        done.chain
    }
}

// A chain opened, if it opens, and what opening answers.
fn opens(rt: &impl Print, label: &str, format: PcmFormat, recipe: &[u8]) -> Option<Pipeline> {
    let opened = Pipeline::open(format, recipe);
    line(rt, label, pcm::number_of(opened), 0);
    opened.ok()
}

fn mono(rate: u32) -> PcmFormat {
    PcmFormat { rate, channels: 1 }
}

// 3 mono frames from 8,000 to 16,000 Hz, with halves of 14 bytes and of 13, then cut after the first frame, and finished.
fn upsampled(rt: &impl Print) {
    let Some(chain) = opens(
        rt,
        "8,000 to 16,000 Hz",
        mono(8000),
        b"\x0a\x00\x04\x00\x40\x1f\x00\x00\x80\x3e\x00\x00",
    ) else {
        return;
    };
    let sound = b"\x00\x00\x64\x00\x32\x00";
    let mut halves = Halves::<14, 14>::new();
    halves.block(rt, "3 frames, halves of 14", chain, sound);
    let mut less = Halves::<13, 14>::new();
    less.block(rt, "3 frames, halves of 13", chain, sound);
    let chain = halves.block(rt, "frame 0", chain, &sound[..2]);
    let chain = halves.block(rt, "frames 1 and 2", chain, &sound[2..]);
    let chain = halves.finish(rt, "finish", chain);
    halves.finish(rt, "finish again", chain);
}

// 16,000 to 8,000 Hz: an output falls on the last of 3 frames, none on the last of 4.
fn halved(rt: &impl Print) {
    let Some(chain) = opens(
        rt,
        "16,000 to 8,000 Hz",
        mono(16000),
        b"\x0a\x00\x04\x00\x80\x3e\x00\x00\x40\x1f\x00\x00",
    ) else {
        return;
    };
    let sound = b"\x0a\x00\x14\x00\x1e\x00\x28\x00";
    let mut halves = Halves::<14, 14>::new();
    let chain = halves.block(rt, "3 frames", chain, &sound[..6]);
    let chain = halves.finish(rt, "finish after 3", chain);
    let chain = halves.block(rt, "4 frames", chain, sound);
    halves.finish(rt, "finish after 4", chain);
}

// 1,000 to 1 to 1,000 to 4,000 Hz: the finish delivers more than any block, and the halves that served the blocks are too short.
fn widened(rt: &impl Print) {
    let Some(chain) = opens(
        rt,
        "1,000 to 1 to 1,000 to 4,000 Hz",
        mono(1000),
        b"\x0a\x00\x04\x00\xe8\x03\x00\x00\x01\x00\x00\x00\x0a\x00\x04\x00\x01\x00\x00\x00\xe8\x03\x00\x00\x0a\x00\x04\x00\xe8\x03\x00\x00\xa0\x0f\x00\x00",
    ) else {
        return;
    };
    let mut sound = [0u8; 2002];
    sound[2000] = 100;
    let mut halves = Halves::<2002, 2002>::new();
    let chain = halves.block(rt, "1,001 frames, halves of 2,002", chain, &sound);
    let chain = halves.finish(rt, "finish, halves of 2,002", chain);
    let mut halves = Halves::<8002, 8002>::new();
    halves.finish(rt, "finish, halves of 8,002", chain);
}

// 8,192 frames pass, 8,193 do not.
fn longest(rt: &impl Print) {
    let Some(chain) = opens(rt, "no stages", mono(16000), b"") else {
        return;
    };
    let sound = [0u8; 16386];
    let mut halves = Halves::<65536, 65536>::new();
    halves.block(rt, "8,192 frames", chain, &sound[..16384]);
    halves.block(rt, "8,193 frames", chain, &sound);
}

// Eight stages open, nine do not: gain 16,384 as often.
fn stages(rt: &impl Print) {
    let format = PcmFormat {
        rate: 16000,
        channels: 2,
    };
    let nine =
        b"\x06\x00\x01\x00\x00\x40\x00\x00\x06\x00\x01\x00\x00\x40\x00\x00\x06\x00\x01\x00\x00\x40\x00\x00\x06\x00\x01\x00\x00\x40\x00\x00\x06\x00\x01\x00\x00\x40\x00\x00\x06\x00\x01\x00\x00\x40\x00\x00\x06\x00\x01\x00\x00\x40\x00\x00\x06\x00\x01\x00\x00\x40\x00\x00\x06\x00\x01\x00\x00\x40\x00\x00";
    opens(rt, "eight stages", format, &nine[..64]);
    opens(rt, "nine stages", format, nine);
}

// in_r and out_r, or the refusal's number.
fn reduced(rt: &impl Print, label: &str, in_rate: u32, out_rate: u32) {
    match LinearResampler::new(in_rate, out_rate) {
        Ok(r) => {
            let _ = println!(rt; "{label}: {} to {}", r.in_r, r.out_r);
        }
        Err(e) => line(rt, label, e.number(), 0),
    }
}

// The divisor search ends at a remainder of 0 or of 1, soon or as late as any two rates make it, and takes none by a rate of 1.
fn divisors(rt: &impl Print) {
    reduced(rt, "44,100 to 16,000", 44100, 16000);
    reduced(rt, "6 to 4", 6, 4);
    reduced(rt, "48,001 to 16,000", 48001, 16000);
    reduced(rt, "383,999 to 384,000", 383999, 384000);
    reduced(rt, "196,418 to 317,811", 196418, 317811);
    reduced(rt, "1 to 384,000", 1, 384000);
    reduced(rt, "384,000 to 1", 384000, 1);
    reduced(rt, "384,001 to 1", 384001, 1);
}

fn main(rt: HostRuntime) {
    upsampled(&rt);
    halved(&rt);
    widened(&rt);
    longest(&rt);
    stages(&rt);
    divisors(&rt);
}
