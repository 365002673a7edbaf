// `Gain`: fixed-point Q15 gain with rounding and saturation (elements/gain.rs).
#![tactic(auto)]

ghost use Rattle.std.specs.Prelude.{◌≡◌, min, ◌≤◌, ◌%◌, pos, neg_ℤ, nat_abs, ◌-ℤ◌, ◌*ℤ◌};
ghost use Rattle.pcm.specs.Integers.{−, floor_div};
ghost use Rattle.pcm.specs.Samples.{decode, held16, outside};
ghost use Rattle.pcm.specs.Frames.{written};
ghost use Rattle.counting.specs.Counting.{count_of};
ghost use Rattle.gain.specs.Clipping.{clipped_in};
ghost use Rattle.gain.specs.Gain.{GainBlock, factor_allowed, held_factor, linear_factor, scaled, scaled_bytes, unity};

// A factor's greatest size, 1024.0.
const LIMIT: i32 = 33554432;

#[derive(Clone, Copy, PartialEq, Eq)]
pub struct Gain {
    pub q15: i32,
}

impl Gain {
    pub const UNITY: Gain = Gain { q15: 32768 };

    // The flat gain.
    pub fn unity() -> Gain
        ensures { result ≡ unity }
    {
        Gain::UNITY
    }

    // A raw Q15 factor, held within the limit.
    #[tactic(auto, unfolding(crate::specs::Gain::held_factor, pcm::specs::Samples::held))]
    pub fn from_q15(q15: i32) -> Gain
        ensures { result.q15 ≡ held_factor q15 }
    {
        Gain {
            q15: q15.clamp(-LIMIT, LIMIT),
        }
    }

    // A linear factor; a negative one inverts.
    pub fn linear(factor: f32) -> Gain
        ensures { result.q15 ≡ linear_factor factor }
    {
        Gain {
            q15: floats::round_held(factor * 32768.0, 33554432, 33554432),
        }
    }

    // Is the factor within the limit?
    pub fn allowed(self) -> bool
        ensures { result ≡ factor_allowed self.q15 }
    {
        (-LIMIT..=LIMIT).contains(&self.q15)
    }

    // The Q15 factor in use.
    pub fn q15(self) -> i32
        ensures { result ≡ self.q15 }
    {
        self.q15
    }

    // One sample, by any factor.
    pub fn apply(self, x: i16) -> i16
        ensures { result ≡ scaled self.q15 x }
    {
        ((i64::from(x) * i64::from(self.q15) + 16384) >> 15).clamp(-32768, 32767) as i16
    }

    // Each sample of input, at the front of out; how many were held back.
    pub fn process(self, input: &[u8], out: &mut [u8]) -> usize
        requires { GainBlock self.q15 input.now out.old }
        ensures { (out.new ≡ written (scaled_bytes self.q15 input.now) out.old) × (result ≡ clipped_in self.q15 (decode input.now)) }
    {
        if self == Gain::UNITY {
            copying::copy_front(input, out);
            return 0;
        }
        let clipped = count_clipped(input, self.q15);
        gain_samples(input, out, self.q15);
        clipped
    }
}

// x times the low 15 bits of k: the compiler sees that a product of 16-bit numbers will do.
fn times(x: i16, k: u32) -> i32
    ensures { result ≡ x *ℤ pos (k % 32768) }
{
    i32::from(x) * ((k % 32768) as i32)
}

// floor((half - x * l) / 32,768), where l is the low 15 bits of p.
fn low_part(x: i16, p: u32, half: i32) -> i32
    requires { nat_abs half ≤ 16384 }
    ensures { (result ≡ floor_div (half -ℤ x *ℤ pos (p % 32768)) 32768) × (nat_abs result ≤ 1073725440) }
{
    (half - times(x, p)) >> 15
}

// One sample by the factor p, in two products that fit 32 bits: by its low 15 bits, and by the rest. -((16383 - a) >> 15) is
// (a + 16384) >> 15; taken so and in this order, no turn of the compiled loop waits for the one before.
fn scale_positive(x: i16, p: u32) -> i16
    requires { p ≤ 33554432 }
    ensures { result ≡ scaled (pos p) x }
{
    pcm::held16(times(x, p / 32768) - low_part(x, p, 16383))
}

// One sample by the factor -p.
fn scale_negative(x: i16, p: u32) -> i16
    requires { p ≤ 33554432 }
    ensures { result ≡ scaled (neg_ℤ (pos p)) x }
{
    pcm::held16(low_part(x, p, 16384) - times(x, p / 32768))
}

// One sample by a factor within the limit. The compiler takes the tests of the sign out of the loop.
fn scale(x: i16, q: i32) -> i16
    requires { nat_abs q ≤ 33554432 }
    ensures { result ≡ scaled q x }
{
    let p = q.unsigned_abs();
    if q < 0 {
        scale_negative(x, p)
    } else {
        scale_positive(x, p)
    }
}

// Each sample of input by the factor, at the front of out.
fn gain_samples(input: &[u8], out: &mut [u8], q: i32)
    requires { GainBlock q input.now out.old }
    ensures { out.new ≡ written (scaled_bytes q input.now) out.old }
{
    pcm::write_samples(
        out,
        input.len() / 2,
        |k| scale(pcm::get_i16(input, 2 * k), q),
    );
}

// Does a sample lie outside lo to hi?
#[tactic(auto, unfolding(pcm::specs::Samples::outside))]
fn outside(x: i16, lo: i16, hi: i16) -> bool
    ensures { result ≡ outside lo hi x }
{
    !(lo..=hi).contains(&x)
}

// How many samples lie outside lo to hi.
fn count_outside(s: &[u8], lo: i16, hi: i16) -> usize
    ensures { result ≡ count_of (outside lo hi) (decode s.now) }
{
    counting::count_where(s.len() / 2, |k| outside(pcm::get_i16(s, 2 * k), lo, hi))
}

// n as the highest sample that is not held back.
fn top(n: u32) -> i16
    ensures { result ≡ pos (min n 32767) }
{
    n.min(32767) as i16
}

// -n as the lowest.
fn bottom(n: u32) -> i16
    requires { n ≤ 32767 }
    ensures { result ≡ − n }
{
    -(n as i32) as i16
}

// How many samples of input the factor holds back. A product above 1,073,725,439 rounds to more than 32,767, and one below
// -1,073,758,208 to less than -32,768: a division each gives the samples between. From -32,767 to 32,768 there are no others.
fn count_clipped(input: &[u8], q: i32) -> usize
    requires { nat_abs q ≤ 33554432 }
    ensures { result ≡ clipped_in q (decode input.now) }
{
    let p = q.unsigned_abs();
    if q > 32768 {
        count_outside(input, bottom(1073758208 / p), top(1073725439 / p))
    } else if q < -32767 {
        count_outside(input, bottom(1073725439 / p), top(1073758208 / p))
    } else {
        0
    }
}
