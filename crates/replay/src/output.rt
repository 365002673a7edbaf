// The fields of an answer, written low byte first.
use crate::Replay;
use pcm::{Error, PcmFormat, Saturated, Valued};
use room::RoomTold;
use std::io;
use std::io::Write;

impl<I, O: Write> Replay<I, O> {
    // Bytes of an answer. A write that fails is passed over, and the script goes on.
    fn write(&mut self, bytes: &[u8]) {
        let _ = self.answers.write_all(bytes);
    }

    // A field's bytes.
    pub fn put<const N: usize>(&mut self, field: [u8; N]) -> io::Result<()> {
        self.write(&field);
        Ok(())
    }

    // A count in eight bytes.
    pub fn put_count(&mut self, n: usize) -> io::Result<()> {
        self.put((n as u64).to_le_bytes())
    }

    // A length, of which four bytes are written.
    pub fn put_length(&mut self, n: usize) -> io::Result<()> {
        self.put(((n % 0x1_0000_0000) as u32).to_le_bytes())
    }

    // A length and so many bytes.
    pub fn put_bytes(&mut self, s: &[u8]) -> io::Result<()> {
        self.put_length(s.len())?;
        self.write(s);
        Ok(())
    }

    // A float's bits, the same for every NaN.
    pub fn put_float(&mut self, x: f32) -> io::Result<()> {
        self.put(floats::bits_of_float(x).to_le_bytes())
    }

    // A sample, and 1 where it was held back.
    pub fn put_sample(&mut self, s: Saturated) -> io::Result<()> {
        self.put(s.sample.to_le_bytes())?;
        self.put([u8::from(s.clipped)])
    }

    // Rate and channels.
    pub fn put_format(&mut self, format: PcmFormat) -> io::Result<()> {
        self.put(format.rate.to_le_bytes())?;
        self.put(format.channels.to_le_bytes())
    }

    // 0 and a count, or a refusal's number and 0.
    pub fn put_value(&mut self, answer: Result<usize, Error>) -> io::Result<()> {
        let t = Valued::from(answer);
        self.put(t.number.to_le_bytes())?;
        self.put_count(t.value)
    }

    // Number and frames of a room known beforehand, and the bytes of one half.
    pub fn put_room(&mut self, t: RoomTold) -> io::Result<()> {
        self.put(t.number.to_le_bytes())?;
        self.put_count(t.frames)?;
        self.put_count(t.half)
    }

    // The counters of the chain in use.
    pub fn put_counters(&mut self) -> io::Result<()> {
        self.put(self.chain.blocks.to_le_bytes())?;
        self.put(self.chain.empty_blocks.to_le_bytes())
    }

    // The mark of a script that goes no further.
    pub fn put_end_mark(&mut self) -> io::Result<()> {
        self.put([0xff])
    }
}
