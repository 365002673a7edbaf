// The public calls, driven by a script: reads calls from standard input and writes what each answered.
#![tactic(auto)]

use pcm::PcmFormat;
use pipeline::Pipeline;
use std::io;
use std::io::{ErrorKind, Read, Write};

mod calls;
mod input;
mod output;

// The calls that a script may ask for.
#[derive(Clone, Copy)]
enum Command {
    Open,
    Block,
    Reset,
    WriteRecipe,
    ScratchBytes,
    OutputFormat,
    Mix,
    MaxOutputFrames,
    Pole,
    Design,
    FromQ15,
    Linear,
    RoundSat16,
    Sat16,
    Finish,
    BlockRoom,
    FinishRoom,
}

impl TryFrom<u8> for Command {
    type Error = io::Error;

    // By the byte that it begins with.
    fn try_from(byte: u8) -> io::Result<Self> {
        match byte {
            0x01 => Ok(Command::Open),
            0x02 => Ok(Command::Block),
            0x03 => Ok(Command::Reset),
            0x04 => Ok(Command::WriteRecipe),
            0x05 => Ok(Command::ScratchBytes),
            0x06 => Ok(Command::OutputFormat),
            0x07 => Ok(Command::Mix),
            0x08 => Ok(Command::MaxOutputFrames),
            0x09 => Ok(Command::Pole),
            0x0a => Ok(Command::Design),
            0x0b => Ok(Command::FromQ15),
            0x0c => Ok(Command::Linear),
            0x0d => Ok(Command::RoundSat16),
            0x0e => Ok(Command::Sat16),
            0x10 => Ok(Command::Finish),
            0x11 => Ok(Command::BlockRoom),
            0x12 => Ok(Command::FinishRoom),
            _ => Err(ErrorKind::InvalidData.into()),
        }
    }
}

// The most bytes that a command may bring at one place.
const MAX_BYTES: usize = 262144;

// Where the bytes of a command are put.
#[derive(Drop)]
pub struct Buffers {
    pub sound: [u8; MAX_BYTES],
    pub a: [u8; MAX_BYTES],
    pub b: [u8; MAX_BYTES],
}

// The script that is read, what its answers go to, and the chain in use.
#[derive(Drop)]
pub struct Replay<I, O> {
    pub script: I,
    pub answers: O,
    pub chain: Pipeline,
}

impl<I: Read, O: Write> Replay<I, O> {
    // The command that begins with this byte, and its answer; an error where the script goes no further.
    // Kept: a match, one line a command; a table of functions is no shorter, and they are not lent the same buffers.
    fn answer(&mut self, byte: u8, buffers: &mut Buffers) -> io::Result<()> {
        match Command::try_from(byte)? {
            Command::Open => self.open(&mut buffers.sound),
            Command::Block => self.block(buffers),
            Command::Reset => self.reset(),
            Command::WriteRecipe => self.write_recipe(&mut buffers.sound),
            Command::ScratchBytes => self.scratch_bytes(),
            Command::OutputFormat => self.output_format(),
            Command::Mix => self.mix(buffers),
            Command::MaxOutputFrames => self.max_output_frames(),
            Command::Pole => self.pole(),
            Command::Design => self.design(),
            Command::FromQ15 => self.from_q15(),
            Command::Linear => self.linear(),
            Command::RoundSat16 => self.round_sat16(),
            Command::Sat16 => self.sat16(),
            Command::Finish => self.finish(buffers),
            Command::BlockRoom => self.block_room(),
            Command::FinishRoom => self.finish_room(),
        }
    }

    // The script's commands in turn, then the end mark where it goes no further. A proved loop has to end, so it counts up to a number
    // that no script reaches.
    fn run(&mut self, buffers: &mut Buffers) -> io::Result<()> {
        for _ in 0..u64::MAX {
            let Ok(byte) = self.field() else {
                return Ok(());
            };
            if self.answer(u8::from_le_bytes(byte), buffers).is_err() {
                return self.put_end_mark();
            }
        }
        Ok(())
    }
}

fn main(rt: HostRuntime) -> io::Result<()> {
    let format = PcmFormat {
        rate: 16000,
        channels: 1,
    };
    let Ok(chain) = Pipeline::open(format, b"") else {
        return Err(ErrorKind::InvalidInput.into());
    };
    let mut replay = Replay {
        script: rt.stdin(),
        answers: rt.stdout(),
        chain,
    };
    replay.run(&mut Buffers {
        sound: [0; MAX_BYTES],
        a: [0; MAX_BYTES],
        b: [0; MAX_BYTES],
    })
}
