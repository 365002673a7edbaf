// A biquad's coefficients, by the Audio EQ Cookbook (biquad.rs).
#![tactic(auto)]

ghost use Rattle.std.specs.Prelude.{◌≡◌, ◌&&◌};
ghost use Rattle.std.specs.Float.Ieee.{lt, le};
ghost use Rattle.cookbook.specs.Cookbook.{identity, frequency, quality, alpha_of, design_settings_allowed, gain_allowed, cookbook, with_numerator, normalised, coefficients_of, design_verdict, design_answer, design_told, design_valued};

use pcm::Error;

// The response to design.
#[derive(Clone, Copy)]
pub enum BiquadKind {
    LowPass { f0: f32, q: f32 },
    HighPass { f0: f32, q: f32 },
    Peak { f0: f32, q: f32, gain_db: f32 },
    Notch { f0: f32, q: f32 },
}

// Divided by a0.
#[derive(Clone, Copy)]
pub struct Coefficients {
    pub b0: f32,
    pub b1: f32,
    pub b2: f32,
    pub a1: f32,
    pub a2: f32,
}

// Number and coefficients of an answer: 0 and the coefficients, or the refusal's number and five times 0.
#[derive(Clone, Copy)]
pub struct DesignTold {
    pub number: u16,
    pub coefficients: Coefficients,
}

impl From<Result<Coefficients, Error>> for DesignTold {
    ghost from_gives = { λ answer told. told ≡ design_told answer };

    // Number and coefficients of each case.
    fn from(answer: Result<Coefficients, Error>) -> DesignTold {
        match answer {
            Ok(coefficients) => DesignTold {
                number: 0,
                coefficients,
            },
            Err(e) => DesignTold {
                number: e.number(),
                coefficients: Coefficients {
                    b0: 0.0,
                    b1: 0.0,
                    b2: 0.0,
                    a1: 0.0,
                    a2: 0.0,
                },
            },
        }
    }
}

// The cookbook's six, before they are divided by a0.
#[derive(Clone, Copy)]
pub struct Section {
    pub b0: f64,
    pub b1: f64,
    pub b2: f64,
    pub a0: f64,
    pub a1: f64,
    pub a2: f64,
}

impl Coefficients {
    // The flat filter.
    pub const IDENTITY: Coefficients = Coefficients {
        b0: 1.0,
        b1: 0.0,
        b2: 0.0,
        a1: 0.0,
        a2: 0.0,
    };

    pub fn flat() -> Coefficients
        ensures { result ≡ identity }
    {
        Coefficients::IDENTITY
    }

    // The coefficients of a kind at a rate. The caller has worked out the sine and the cosine of w0 = 2π * f0 / rate and, for Peak,
    // a = 10^(gain_db / 40).
    pub fn design(
        kind: BiquadKind,
        rate: u32,
        sine: f64,
        cosine: f64,
        a: f64,
    ) -> Result<Coefficients, Error>
        ensures value { result ≡ design_answer kind rate sine cosine a }
        ensures told { design_told result ≡ design_valued (design_verdict kind rate sine cosine a) (coefficients_of kind sine cosine a) }
    {
        let (f0, q) = kind.settings();
        if allowed(f0, q, rate, sine, cosine) && kind.gain_allowed(a) {
            let section = kind.section(cosine, alpha(sine, q), a);
            return Ok(section.normalise());
        }
        Err(Error::InvalidFormat)
    }
}

impl BiquadKind {
    // f0 and q, which every kind has.
    fn settings(self) -> (f32, f32)
        ensures frequency { result.0 ≡ frequency self }
        ensures quality { result.1 ≡ quality self }
    {
        match self {
            BiquadKind::LowPass { f0, q }
            | BiquadKind::HighPass { f0, q }
            | BiquadKind::Peak { f0, q, .. }
            | BiquadKind::Notch { f0, q } => (f0, q),
        }
    }

    // Peak's a must be finite and above 0.
    fn gain_allowed(self, a: f64) -> bool
        ensures { result ≡ gain_allowed self a }
    {
        match self {
            BiquadKind::Peak { .. } => between(a, 0.0, f64::INFINITY),
            _ => true,
        }
    }

    // The cookbook's six of a kind.
    fn section(self, cosine: f64, alpha: f64, a: f64) -> Section
        ensures { result ≡ cookbook self cosine alpha a }
    {
        match self {
            BiquadKind::LowPass { .. } => {
                let half = (1.0 - cosine) / 2.0;
                Section::with_numerator(half, 1.0 - cosine, half, cosine, alpha)
            }
            BiquadKind::HighPass { .. } => {
                let half = (1.0 + cosine) / 2.0;
                Section::with_numerator(half, -(1.0 + cosine), half, cosine, alpha)
            }
            BiquadKind::Peak { .. } => {
                let boost = alpha * a;
                Section::with_numerator(1.0 + boost, -2.0 * cosine, 1.0 - boost, cosine, alpha / a)
            }
            BiquadKind::Notch { .. } => {
                Section::with_numerator(1.0, -2.0 * cosine, 1.0, cosine, alpha)
            }
        }
    }
}

// Whether the settings that every kind has make a filter; a NaN fails each test.
fn allowed(f0: f32, q: f32, rate: u32, sine: f64, cosine: f64) -> bool
    ensures { result ≡ design_settings_allowed f0 q rate sine cosine }
{
    pcm::rate_allowed(rate)
        && between(f64::from(f0), 0.0, f64::from(rate) / 2.0)
        && q > 0.0
        && within(cosine, -1.0, 1.0)
        && within(sine, 0.0, 1.0)
}

// sine / (2 * q)
fn alpha(sine: f64, q: f32) -> f64
    ensures { result ≡ alpha_of sine q }
{
    sine / (2.0 * f64::from(q))
}

// low < x < high
fn between(x: f64, low: f64, high: f64) -> bool
    ensures { result ≡ (lt low x && lt x high) }
{
    low < x && x < high
}

// low <= x <= high
fn within(x: f64, low: f64, high: f64) -> bool
    ensures { result ≡ (le low x && le x high) }
{
    low <= x && x <= high
}

impl Section {
    // The kinds share their denominator; Peak has alpha / a for alpha.
    fn with_numerator(b0: f64, b1: f64, b2: f64, cosine: f64, alpha: f64) -> Section
        ensures { result ≡ with_numerator b0 b1 b2 cosine alpha }
    {
        Section {
            b0,
            b1,
            b2,
            a0: 1.0 + alpha,
            a1: -2.0 * cosine,
            a2: 1.0 - alpha,
        }
    }

    // Each divided by a0, and narrowed.
    fn normalise(self) -> Coefficients
        ensures { result ≡ normalised self }
    {
        Coefficients {
            b0: floats::narrow(self.b0 / self.a0),
            b1: floats::narrow(self.b1 / self.a0),
            b2: floats::narrow(self.b2 / self.a0),
            a1: floats::narrow(self.a1 / self.a0),
            a2: floats::narrow(self.a2 / self.a0),
        }
    }
}
