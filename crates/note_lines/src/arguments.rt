// The numbers among the desk program's arguments.
ghost use Rattle.std.specs.Prelude.{◌≡◌};
ghost use Rattle.note_lines.specs.Arguments.{number_after, format_of};

use pcm::PcmFormat;

// The number that decimal digits spell; none where there is anything else, or it does not fit.
// Kept: digit by digit: `str::parse` would take a sign, and wants the bytes to be UTF-8 first.
fn number(text: &[u8]) -> Option<u32>
    ensures { result ≡ number_after 0xffffffff 0 text.now }
{
    let mut value: u32 = 0;
    for b in text {
        let digit = char::from(*b).to_digit(10)?;
        value = value.checked_mul(10)?.checked_add(digit)?;
    }
    Some(value)
}

// The format that two arguments give. 0 stands where one is no number of its field: it is no rate and no channel count.
pub fn format(rate: &[u8], channels: &[u8]) -> PcmFormat
    ensures { result ≡ format_of rate.now channels.now }
{
    PcmFormat {
        rate: number(rate).unwrap_or(0),
        channels: u16::try_from(number(channels).unwrap_or(0)).unwrap_or(0),
    }
}
