// The fields of a command, read low byte first. An error where the script ends inside them.
use crate::Replay;
use cookbook::BiquadKind;
use pcm::PcmFormat;
use std::io::{ErrorKind, Read};
use std::{io, num};

impl<I: Read, O> Replay<I, O> {
    // The next bytes.
    pub fn field<const N: usize>(&mut self) -> io::Result<[u8; N]> {
        let mut bytes = [0; N];
        self.script.read_exact(&mut bytes)?;
        Ok(bytes)
    }

    // A length, and so many bytes, which are put at the front of buf. More than it holds counts as the end.
    pub fn bytes<'a>(&mut self, buf: &'a mut [u8]) -> io::Result<&'a mut [u8]> {
        let n = u32::from_le_bytes(self.field()?) as usize;
        let front = buf.get_mut(..n).ok_or(ErrorKind::InvalidData)?;
        self.script.read_exact(front)?;
        Ok(front)
    }

    // A count of frames or bytes.
    pub fn count(&mut self) -> io::Result<usize> {
        Ok(u64::from_le_bytes(self.field()?) as usize)
    }

    pub fn float(&mut self) -> io::Result<f32> {
        Ok(floats::float_of_bits(u32::from_le_bytes(self.field()?)))
    }

    pub fn double(&mut self) -> io::Result<f64> {
        Ok(num::f64_from_bits_with_nan(u64::from_le_bytes(self.field()?)))
    }

    // Rate and channels.
    pub fn format(&mut self) -> io::Result<PcmFormat> {
        let rate = u32::from_le_bytes(self.field()?);
        let channels = u16::from_le_bytes(self.field()?);
        Ok(PcmFormat { rate, channels })
    }

    // A filter's kind and its three parameters, of which a peak alone takes the third; None for a kind that there is not.
    pub fn filter_kind(&mut self) -> io::Result<Option<BiquadKind>> {
        let number = u8::from_le_bytes(self.field()?);
        let f0 = self.float()?;
        let q = self.float()?;
        let gain_db = self.float()?;
        Ok(match number {
            1 => Some(BiquadKind::LowPass { f0, q }),
            2 => Some(BiquadKind::HighPass { f0, q }),
            3 => Some(BiquadKind::Peak { f0, q, gain_db }),
            4 => Some(BiquadKind::Notch { f0, q }),
            _ => None,
        })
    }
}
