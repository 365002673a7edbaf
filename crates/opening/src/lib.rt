// The questions of a record that was read whole, and the stage that it opens.
#![tactic(auto)]

ghost use Rattle.std.specs.Prelude.{◌≡◌, true, ◌-◌};
ghost use Rattle.pcm.specs.Formats.{rate_allowed};
ghost use Rattle.rates.specs.Rates.{rates_allowed, reduced};
ghost use Rattle.opening.specs.Opening.{settings_allowed, record_suits, stage_kind_of, stage_answer};

use biquad::Biquad;
use dc_block::DcBlock;
use gain::Gain;
use pcm::{Error, PcmFormat};
use rates::LinearResampler;
use recipe::Record;
use stage::{Stage, StageKind};

// Are gain and rates within their limits?
fn settings_allowed(found: Record) -> bool
    ensures { result ≡ settings_allowed found }
{
    match found {
        Record::Gain { q15 } => Gain { q15 }.allowed(),
        Record::Resample { in_rate, out_rate } => rates::rates_allowed(in_rate, out_rate),
        Record::Biquad { rate, .. } => pcm::rate_allowed(rate),
        _ => true,
    }
}

// Does the format that reaches the stage suit it?
fn suits(format: PcmFormat, found: Record) -> bool
    ensures { result ≡ record_suits format found }
{
    match found {
        Record::MonoToStereo => format.channels == 1,
        Record::StereoToMono => format.channels == 2,
        Record::Resample { in_rate, .. } => format.rate == in_rate,
        Record::Biquad { rate, .. } => format.rate == rate,
        _ => true,
    }
}

// A resampler of rates that are within the limit.
#[tactic(auto, using(rates::specs::laws::Rates::opened_made))]
fn resampler(in_rate: u32, out_rate: u32) -> Result<StageKind, Error>
    requires { rates_allowed in_rate out_rate ≡ true }
    ensures { result ≡ Ok (StageKind.Resample (reduced in_rate out_rate)) }
{
    let r = LinearResampler::new(in_rate, out_rate)?;
    Ok(StageKind::Resample(r))
}

// The stage of a record whose settings are within their limits.
fn stage_kind(format: PcmFormat, found: Record) -> Result<StageKind, Error>
    requires { (settings_allowed found ≡ true) × (rate_allowed format.rate ≡ true) }
    ensures { result ≡ Ok (stage_kind_of format found) }
{
    match found {
        Record::Gain { q15 } => Ok(StageKind::Gain(Gain { q15 })),
        Record::MonoToStereo => Ok(StageKind::MonoToStereo),
        Record::StereoToMono => Ok(StageKind::StereoToMono),
        Record::Resample { in_rate, out_rate } => resampler(in_rate, out_rate),
        Record::DcBlock { corner } => {
            Ok(StageKind::DcBlock(DcBlock::from_bits(corner).tuned(format.rate)))
        }
        Record::Biquad { rate, bits } => { Ok(StageKind::Biquad(Biquad::from_bits(rate, bits))) }
    }
}

// The stage that a record opens, where `before` stages stand before it and `format` reaches it.
#[tactic(auto, unfolding(crate::specs::Opening::stage_verdict))]
pub fn stage_of(format: PcmFormat, before: usize, found: Record) -> Result<StageKind, Error>
    requires { rate_allowed format.rate ≡ true }
    ensures { result ≡ stage_answer (8 - before) format found }
{
    let within = settings_allowed(found);
    let suited = suits(format, found);
    if before >= 8 {
        return Err(Error::TooManyStages);
    }
    if !within {
        return Err(Error::SettingOutOfRange);
    }
    if !suited {
        return Err(Error::Unsupported);
    }
    stage_kind(format, found)
}
