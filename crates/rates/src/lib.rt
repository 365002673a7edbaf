// A resampler's rates, and the frames that it wants and delivers, from the phase alone (resample.rs).
#![tactic(auto)]

ghost use Rattle.std.specs.Prelude.{◌≡◌, ◌+◌, ◌*◌, ◌/◌, ◌%◌, ◌<◌, ◌^◌};
ghost use Rattle.pcm.specs.Refusals.{valued};
ghost use Rattle.rates.specs.Answers.{new_told, rates_told, new_verdict, max_told, max_verdict};
ghost use Rattle.rates.specs.Divisor.{gcd};
ghost use Rattle.rates.specs.Rates.{opened_state, resampled_count, rates_allowed, resampler_of, room_frames, max_frames, start};

use pcm::Error;

// The rates, and the same divided by their greatest common divisor.
#[derive(Clone, Copy)]
pub struct LinearResampler {
    pub in_rate: u32,
    pub out_rate: u32,
    pub in_r: u64,
    pub out_r: u64,
}

// How far past the newest frame the next output lies, in out_r-ths of a frame, and that frame, one sample a channel. The 64 bits stand first:
// a chain is copied at each call, and so eight states have 64 bytes less to copy.
// Kept: a flag in place of an `Option` of frame and phase: each field may hold any value where the state is not primed too, as the words of a
// chain in C's memory do, and a state that is read and written back keeps them.
#[derive(Clone, Copy)]
pub struct ResamplerState {
    pub phase: u64,
    pub last: [i16; 2],
    pub primed: bool,
}

impl ResamplerState {
    // As opened, and after a reset.
    pub fn new() -> ResamplerState
        ensures { result ≡ opened_state }
    {
        ResamplerState {
            phase: 0,
            last: [0, 0],
            primed: false,
        }
    }

    // The first output's position, where 0 is the state's newest frame and out_r the first of the block.
    #[tactic(auto, unfolding(crate::specs::Rates::start))]
    pub fn first_position(self, out_r: u64) -> u64
        ensures { result ≡ start out_r self.primed self.phase }
    {
        if self.primed { self.phase } else { out_r }
    }
}

// What a division by more than 1 leaves.
fn remainder(a: u32, b: u32) -> u32
    requires { 1 < b }
    ensures { result ≡ a % b }
{
    a % b
}

// The greatest common divisor. The search stops at a remainder of 1 or 0, and before any where y is 1.
// Kept: a loop that counts nothing; no range or iterator has its steps.
#[tactic(auto, using(crate::proofs::Rates::search_steps))]
fn gcd(x: u32, y: u32) -> u32
    requires { (0 < x) × (0 < y) }
    ensures { result ≡ gcd x y }
{
    if y == 1 {
        return 1;
    }
    let (mut a, mut b) = (x, y);
    loop {
        match remainder(a, b) {
            1 => break 1,
            0 => break b,
            t => (a, b) = (b, t),
        }
    }
}

// A rate divided by a divisor, with no division where that is 1.
fn quotient(rate: u32, divisor: u32) -> u32
    requires { 0 < divisor }
    ensures { result ≡ rate / divisor }
{
    if divisor == 1 { rate } else { rate / divisor }
}

// Are both rates within the limit?
#[tactic(auto, unfolding(crate::specs::Rates::rates_allowed))]
pub fn rates_allowed(in_rate: u32, out_rate: u32) -> bool
    ensures { result ≡ rates_allowed in_rate out_rate }
{
    pcm::rate_allowed(in_rate) && pcm::rate_allowed(out_rate)
}

impl LinearResampler {
    // A resampler between two rates of 1 to 384,000.
    #[tactic(auto, unfolding(crate::specs::Rates::resampler_of, crate::specs::Rates::reduced), using(crate::specs::laws::Rates::rates_within, crate::specs::laws::Divisor::gcd_positive))]
    pub fn new(in_rate: u32, out_rate: u32) -> Result<LinearResampler, Error>
        ensures value { result ≡ resampler_of in_rate out_rate }
        ensures told { new_told result ≡ rates_told (new_verdict in_rate out_rate) (in_rate / gcd in_rate out_rate) (out_rate / gcd in_rate out_rate) }
    {
        if !rates_allowed(in_rate, out_rate) {
            return Err(Error::InvalidFormat);
        }
        let g = gcd(in_rate, out_rate);
        Ok(LinearResampler {
            in_rate,
            out_rate,
            in_r: u64::from(quotient(in_rate, g)),
            out_r: u64::from(quotient(out_rate, g)),
        })
    }

    // The room wanted for any number of frames, in frames. The caller keeps the product within 64 bits.
    #[tactic(auto, unfolding(crate::specs::Rates::room_frames), using(crate::proofs::Rates::ceil_is))]
    pub fn room_frames(self, frames: usize) -> usize
        requires { (0 < self.in_rate) × (frames * self.out_rate + self.in_rate < 2 ^ 64) }
        ensures { result ≡ room_frames self.in_rate self.out_rate frames }
    {
        let output = self.out_rate as usize;
        let input = self.in_rate as usize;
        (frames * output).div_ceil(input) + 1
    }

    // The room wanted for a block of at most 8,192 frames, in frames.
    #[tactic(auto, unfolding(crate::specs::Rates::max_frames), using(crate::specs::laws::Rates::rates_within))]
    pub fn max_output_frames(self, frames: usize) -> Result<usize, Error>
        ensures value { result ≡ max_frames self frames }
        ensures told { max_told result ≡ valued (max_verdict self frames) (room_frames self.in_rate self.out_rate frames) }
    {
        if !rates_allowed(self.in_rate, self.out_rate) {
            return Err(Error::InvalidFormat);
        }
        if frames > pcm::MAX_FRAMES {
            return Err(Error::TooLong);
        }
        Ok(self.room_frames(frames))
    }

    // How many frames the stage makes of so many, from the phase alone: exact, at equal rates also.
    #[tactic(auto, using(crate::proofs::Rates::counted))]
    pub fn output_frames(self, state: ResamplerState, frames: usize) -> usize
        requires { (0 < self.in_r) × (frames * self.out_r + self.in_r < 2 ^ 64) }
        ensures { result ≡ resampled_count self state.primed state.phase frames }
    {
        if self.in_rate == self.out_rate {
            return frames;
        }
        let end = (frames as u64) * self.out_r;
        let num = state.first_position(self.out_r);
        end.saturating_sub(num).div_ceil(self.in_r) as usize
    }
}
