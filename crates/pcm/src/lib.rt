// Formats, refusals, limits and 16-bit samples, low byte first (lib.rs, elements/mod.rs).
#![tactic(auto)]

ghost use Rattle.std.specs.Prelude.{◌≡◌, ℕ, ℤ, List, ◌+◌, ◌*◌, ◌≤◌, ◌<◌, length};
ghost use Rattle.pcm.specs.Formats.{rate_allowed, format_allowed, frame_bytes};
ghost use Rattle.pcm.specs.Frames.{written};
ghost use Rattle.pcm.specs.Refusals.{refusal, number_of, verdict_of, value_told, room_verdict};
ghost use Rattle.pcm.specs.Samples.{held16, outside16, saturated, sample_at, stored, encode, Gives};

pub const MAX_CHANNELS: u16 = 2;

pub const MAX_RATE: u32 = 384000;

pub const MAX_FRAMES: usize = 8192;

// How sound is laid out: frames a second, and samples a frame.
#[derive(Clone, Copy, PartialEq, Eq)]
pub struct PcmFormat {
    pub rate: u32,
    pub channels: u16,
}

// Is a rate within its limit?
#[tactic(auto, unfolding(crate::specs::Formats::rate_allowed))]
pub fn rate_allowed(rate: u32) -> bool
    ensures { result ≡ rate_allowed rate }
{
    (1..=MAX_RATE).contains(&rate)
}

impl PcmFormat {
    // Are the rate and the channel count within their limits?
    #[tactic(auto, unfolding(crate::specs::Formats::format_allowed, crate::specs::Formats::channels_allowed))]
    pub fn allowed(self) -> bool
        ensures { result ≡ format_allowed self }
    {
        (1..=MAX_CHANNELS).contains(&self.channels) && rate_allowed(self.rate)
    }

    // The bytes of one frame.
    pub fn frame_bytes(self) -> usize
        ensures { result ≡ frame_bytes self }
    {
        usize::from(self.channels) * 2
    }
}

// Why a call is refused. The first four are the source's.
#[derive(Clone, Copy, PartialEq, Eq)]
pub enum Error {
    InvalidFormat,
    Unsupported,
    BufferTooSmall { needed: usize },
    InvalidGeometry,
    ShortRecord,
    UnknownStage,
    RecordLength,
    TooManyStages,
    SettingOutOfRange,
    TooLong,
    NoteTooLong,
}

impl Error {
    // The refusal's number.
    // Kept: `number` and `needed` in place of `From`: two whole numbers belong to a refusal, and `u16::from(e)` would not say which it gives.
    pub fn number(self) -> u16
        ensures { result ≡ (refusal self).number }
    {
        match self {
            Error::InvalidFormat => 1,
            Error::Unsupported => 2,
            Error::BufferTooSmall { needed: _ } => 3,
            Error::InvalidGeometry => 4,
            Error::ShortRecord => 5,
            Error::UnknownStage => 6,
            Error::RecordLength => 7,
            Error::TooManyStages => 8,
            Error::SettingOutOfRange => 9,
            Error::TooLong => 10,
            Error::NoteTooLong => 11,
        }
    }

    // The bytes needed where the refusal is for room, else 0.
    pub fn needed(self) -> usize
        ensures { result ≡ (refusal self).needed }
    {
        match self {
            Error::BufferTooSmall { needed } => needed,
            _ => 0,
        }
    }
}

// 0 of a call that gives an answer, or the refusal's number.
pub fn number_of<T: Copy>(answer: Result<T, Error>) -> u16
    ensures { result ≡ number_of (verdict_of answer) }
{
    match answer {
        Ok(_) => 0,
        Err(e) => e.number(),
    }
}

// Number and value of a call that gives one: 0 and the value, or the refusal's number and 0.
#[derive(Clone, Copy)]
pub struct Valued {
    pub number: u16,
    pub value: usize,
}

impl From<Result<usize, Error>> for Valued {
    ghost from_gives = { λ answer told. told ≡ value_told answer };

    // Number and value of each case.
    fn from(answer: Result<usize, Error>) -> Valued {
        match answer {
            Ok(value) => Valued { number: 0, value },
            Err(e) => Valued {
                number: e.number(),
                value: 0,
            },
        }
    }
}

// Does `out` hold `needed` bytes?
#[tactic(auto, unfolding(crate::specs::Refusals::room_verdict))]
pub fn require_room(out: &[u8], needed: usize) -> Result<(), Error>
    ensures { result ≡ room_verdict needed (length out.now) }
{
    if out.len() < needed {
        return Err(Error::BufferTooSmall { needed });
    }
    Ok(())
}

// A sample, and whether it was held back.
// Kept: a flag beside the value: a sample that was held back is written and counted, so both are wanted in every case.
#[derive(Clone, Copy)]
pub struct Saturated {
    pub sample: i16,
    pub clipped: bool,
}

// A number held within the sample range; a sample at exactly the limit was not held back.
pub fn sat16(v: i32) -> Saturated
    ensures { result ≡ saturated v }
{
    Saturated {
        sample: held16(v),
        clipped: outside16(v),
    }
}

// The sample alone.
#[tactic(auto, unfolding(crate::specs::Samples::held))]
pub fn held16(v: i32) -> i16
    ensures { result ≡ held16 v }
{
    v.clamp(-32768, 32767) as i16
}

// Whether it is held back.
#[tactic(auto, unfolding(crate::specs::Samples::outside))]
pub fn outside16(v: i32) -> bool
    ensures { result ≡ outside16 v }
{
    !(-32768..=32767).contains(&v)
}

// The sample at the bytes i and i + 1.
#[tactic(auto, unfolding(crate::specs::Samples::sample_at, crate::specs::Samples::sample_of))]
pub fn get_i16(s: &[u8], i: usize) -> i16
    requires { i + 1 < length s.now }
    ensures { result ≡ sample_at s.now i }
{
    i16::from_le_bytes([s[i], s[i + 1]])
}

// The sample v to the bytes i and i + 1.
#[tactic(auto, unfolding(crate::specs::Samples::stored, crate::specs::Samples::low_of, crate::specs::Samples::high_of))]
pub fn put_i16(s: &mut [u8], i: usize, v: i16)
    requires { i + 1 < length s.old }
    ensures { s.new ≡ stored s.old i v }
{
    let bytes = v.to_le_bytes();
    s[i] = bytes[0];
    s[i + 1] = bytes[1];
}

// n samples at the front of out: the bytes of all zs, where `sample` gives each k below n the sample k of zs.
pub fn write_samples<F: Fn(usize) -> i16>(out: &mut [u8], n: usize, sample: F)
    requires room { 2 * n ≤ length out.old }
    requires callable { (k : ℕ) → k < n → F.pre sample k }
    ensures { (zs : List ℤ) → length zs ≡ n → Gives (F.post sample) n zs → out.new ≡ written (encode zs) out.old }
{
    for k in 0..n {
        put_i16(out, 2 * k, sample(k));
    }
}
