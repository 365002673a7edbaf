// Each command: its fields, the call, its answer. An error where the script ends inside it.
use crate::{Buffers, Replay};
use answers::{Answer, FinishTold, Told};
use channels::MixTold;
use cookbook::{Coefficients, DesignTold};
use dc_block::{DcBlock, PoleTold};
use gain::Gain;
use pcm::Error;
use pipeline::{Pipeline, WriteTold};
use rates::LinearResampler;
use room::RoomTold;
use std::io;
use std::io::{ErrorKind, Read, Write};

impl<I: Read, O: Write> Replay<I, O> {
    pub fn open(&mut self, buf: &mut [u8]) -> io::Result<()> {
        let format = self.format()?;
        let recipe = self.bytes(buf)?;
        let opened = Pipeline::open(format, recipe);
        if let Ok(chain) = opened {
            self.chain = chain;
        }
        self.put(pcm::number_of(opened).to_le_bytes())
    }

    // The output's part of the halves that were lent, and every byte of them; then the counters, and how many samples were held back.
    fn put_lent<T: Copy>(
        &mut self,
        answer: Result<Answer<T>, Error>,
        a: &[u8],
        b: &[u8],
        clipped: usize,
    ) -> io::Result<()> {
        self.put_bytes(answer.map_or(&[], |x| x.output(a, b)))?;
        self.put_bytes(a)?;
        self.put_bytes(b)?;
        self.put_counters()?;
        self.put_count(clipped)
    }

    pub fn block(&mut self, buffers: &mut Buffers) -> io::Result<()> {
        let format = self.format()?;
        let timestamp = u64::from_le_bytes(self.field()?);
        let sound = self.bytes(&mut buffers.sound)?;
        let a = self.bytes(&mut buffers.a)?;
        let b = self.bytes(&mut buffers.b)?;
        let done = block::process(self.chain, format, timestamp, sound, a, b);
        self.chain = done.chain;
        let answer = done.answer;
        let t = Told::from(answer);
        self.put(t.number.to_le_bytes())?;
        self.put_count(t.needed)?;
        self.put([t.outcome])?;
        self.put(t.rate.to_le_bytes())?;
        self.put(t.channels.to_le_bytes())?;
        self.put(t.timestamp.to_le_bytes())?;
        self.put([t.half])?;
        self.put_length(t.len)?;
        self.put_lent(answer, a, b, t.clipped)
    }

    pub fn reset(&mut self) -> io::Result<()> {
        self.chain = self.chain.reset();
        self.put_counters()
    }

    pub fn finish(&mut self, buffers: &mut Buffers) -> io::Result<()> {
        let a = self.bytes(&mut buffers.a)?;
        let b = self.bytes(&mut buffers.b)?;
        let done = finish::finish(self.chain, a, b);
        self.chain = done.chain;
        let answer = done.answer;
        let t = FinishTold::from(answer);
        self.put(t.number.to_le_bytes())?;
        self.put_count(t.needed)?;
        self.put([t.outcome])?;
        self.put(t.rate.to_le_bytes())?;
        self.put(t.channels.to_le_bytes())?;
        self.put([t.half])?;
        self.put_length(t.len)?;
        self.put_lent(answer, a, b, t.clipped)
    }

    pub fn write_recipe(&mut self, buf: &mut [u8]) -> io::Result<()> {
        let room = self.bytes(buf)?;
        let t = WriteTold::from(self.chain.write_recipe(room));
        self.put(t.number.to_le_bytes())?;
        self.put_count(t.needed)?;
        self.put_length(t.len)?;
        self.put_bytes(room)
    }

    pub fn scratch_bytes(&mut self) -> io::Result<()> {
        let len = self.count()?;
        self.put_value(block::scratch_bytes(self.chain, len))
    }

    pub fn block_room(&mut self) -> io::Result<()> {
        let frames = self.count()?;
        self.put_room(room::block_room(self.chain, frames).into())
    }

    pub fn finish_room(&mut self) -> io::Result<()> {
        self.put_room(room::finish_room(self.chain).into())
    }

    pub fn output_format(&mut self) -> io::Result<()> {
        self.put_format(self.chain.output_format())
    }

    pub fn mix(&mut self, buffers: &mut Buffers) -> io::Result<()> {
        let a = self.bytes(&mut buffers.a)?;
        let b = self.bytes(&mut buffers.b)?;
        let out = self.bytes(&mut buffers.sound)?;
        let t = MixTold::from(channels::mix_i16(a, b, out));
        self.put(t.number.to_le_bytes())?;
        self.put_count(t.needed)?;
        self.put_bytes(out)?;
        self.put_count(t.clipped)
    }

    pub fn max_output_frames(&mut self) -> io::Result<()> {
        let in_rate = u32::from_le_bytes(self.field()?);
        let out_rate = u32::from_le_bytes(self.field()?);
        let frames = self.count()?;
        let made = LinearResampler::new(in_rate, out_rate);
        self.put_value(made.and_then(|r| r.max_output_frames(frames)))
    }

    pub fn pole(&mut self) -> io::Result<()> {
        let corner = self.float()?;
        let rate = u32::from_le_bytes(self.field()?);
        let t = PoleTold::from(DcBlock::pole(corner, rate));
        self.put(t.number.to_le_bytes())?;
        self.put_float(t.pole)
    }

    // A kind that there is not counts as the end, once its fields are there.
    pub fn design(&mut self) -> io::Result<()> {
        let kind = self.filter_kind()?;
        let rate = u32::from_le_bytes(self.field()?);
        let sine = self.double()?;
        let cosine = self.double()?;
        let a = self.double()?;
        let kind = kind.ok_or(ErrorKind::InvalidData)?;
        let t = DesignTold::from(Coefficients::design(kind, rate, sine, cosine, a));
        let k = t.coefficients;
        self.put(t.number.to_le_bytes())?;
        for x in [k.b0, k.b1, k.b2, k.a1, k.a2] {
            self.put_float(x)?;
        }
        Ok(())
    }

    pub fn from_q15(&mut self) -> io::Result<()> {
        let kept = Gain::from_q15(i32::from_le_bytes(self.field()?));
        self.put(kept.q15().to_le_bytes())
    }

    pub fn linear(&mut self) -> io::Result<()> {
        let made = Gain::linear(self.float()?);
        self.put(made.q15().to_le_bytes())
    }

    pub fn round_sat16(&mut self) -> io::Result<()> {
        let x = self.float()?;
        self.put_sample(floats::round_sat16(x))
    }

    pub fn sat16(&mut self) -> io::Result<()> {
        let x = i32::from_le_bytes(self.field()?);
        self.put_sample(pcm::sat16(x))
    }
}
