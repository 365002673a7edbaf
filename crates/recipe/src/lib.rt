// One record of a recipe, read and written (document 01, 'The recipe'; document 02, Q-4).
#![tactic(auto)]

ghost use Rattle.std.specs.Prelude.{◌≡◌, false, ◌+◌, ◌*◌, ◌≤◌, ◌<◌, length, drop, MatchResult};
ghost use Rattle.std.specs.Iterator.{YieldsFirstBy, item_count};
ghost use Rattle.pcm.specs.Frames.{written};
ghost use Rattle.words.specs.Words.{words, words_bytes};
ghost use Rattle.std.proofs.lemmas.List.Edits.{sets};
ghost use Rattle.pcm.specs.declared.Error.TheVariants.{UnknownStage};
ghost use Rattle.recipe.specs.Kinds.{kind_number};
ghost use Rattle.recipe.specs.Records.{of_stage, of_note, kind_at, field_count, record_verdict, record_of, record_kind, read_record, record_bytes, fields_of, records, KindRead, after_next};

use biquad::CoefficientBits;
use pcm::Error;

// A stage's fields as its record's bytes give them.
#[derive(Clone, Copy)]
pub enum Record {
    Gain { q15: i32 },
    MonoToStereo,
    StereoToMono,
    Resample { in_rate: u32, out_rate: u32 },
    DcBlock { corner: u32 },
    Biquad { rate: u32, bits: CoefficientBits },
}

// What a record is: a stage's, or a note of so many bytes.
#[derive(Clone, Copy)]
pub enum Entry {
    Stage(Record),
    Note(usize),
}

// A stage's kind, with the number that its record has.
#[derive(Clone, Copy)]
pub enum Kind {
    Gain = 1,
    MonoToStereo = 2,
    StereoToMono = 3,
    Resample = 4,
    DcBlock = 5,
    Biquad = 6,
}

impl TryFrom<u16> for Kind {
    type Error = Error;

    ghost try_from_gives = { λ number r. MatchResult r (λ kind. number ≡ kind_number kind) (λ e. (of_stage number ≡ false) × (e ≡ UnknownStage)) };

    fn try_from(number: u16) -> Result<Self, Error> {
        match number {
            1 => Ok(Kind::Gain),
            2 => Ok(Kind::MonoToStereo),
            3 => Ok(Kind::StereoToMono),
            4 => Ok(Kind::Resample),
            5 => Ok(Kind::DcBlock),
            6 => Ok(Kind::Biquad),
            _ => Err(Error::UnknownStage),
        }
    }
}

impl From<Kind> for u16 {
    ghost from_gives = { λ kind number. number ≡ kind_number kind };

    fn from(kind: Kind) -> u16 {
        kind as u16
    }
}

impl Kind {
    // How many fields of 32 bits it has.
    fn field_count(self) -> usize
        ensures { result ≡ field_count (kind_number self) }
    {
        match self {
            Kind::MonoToStereo | Kind::StereoToMono => 0,
            Kind::Gain | Kind::DcBlock => 1,
            Kind::Resample => 2,
            Kind::Biquad => 6,
        }
    }
}

// Is a record of this kind a note?
pub fn of_note(kind: u16) -> bool
    ensures { result ≡ of_note kind }
{
    kind >= 0x8000
}

// The questions of a record's bytes; its kind, or none where it is a note. Lengths count the two bytes of the kind.
#[tactic(auto, unfolding(crate::specs::Records::record_verdict))]
fn record_question(left: &[u8]) -> Result<Option<Kind>, Error>
    ensures { MatchResult result (λ kind. (record_verdict left.now ≡ Ok tt) × KindRead kind (kind_at left.now)) (λ e. record_verdict left.now ≡ Err e) }
{
    if left.len() < 4 {
        return Err(Error::ShortRecord);
    }
    let length = usize::from(words::get_u16(left, 0));
    if length < 2 {
        return Err(Error::ShortRecord);
    }
    let number = words::get_u16(left, 2);
    let kind = if of_note(number) {
        if length > 66 {
            return Err(Error::NoteTooLong);
        }
        None
    } else {
        let kind = Kind::try_from(number)?;
        if length != 2 + 4 * kind.field_count() {
            return Err(Error::RecordLength);
        }
        Some(kind)
    };
    if left.len() < 2 + length {
        return Err(Error::ShortRecord);
    }
    Ok(kind)
}

impl Record {
    // The record of this kind, with the fields that start at the fifth byte.
    #[tactic(auto, unfolding(crate::specs::Records::record_of))]
    fn of_kind(kind: Kind, left: &[u8]) -> Record
        requires { 4 + 4 * field_count (kind_number kind) ≤ length left.now }
        ensures { result ≡ record_of (kind_number kind) (words (field_count (kind_number kind)) (drop 4 left.now)) }
    {
        match kind {
            Kind::Gain => Record::Gain {
                q15: words::get_i32(left, 4),
            },
            Kind::MonoToStereo => Record::MonoToStereo,
            Kind::StereoToMono => Record::StereoToMono,
            Kind::Resample => Record::Resample {
                in_rate: words::get_u32(left, 4),
                out_rate: words::get_u32(left, 8),
            },
            Kind::DcBlock => Record::DcBlock {
                corner: words::get_u32(left, 4),
            },
            Kind::Biquad => Record::Biquad {
                rate: words::get_u32(left, 4),
                bits: CoefficientBits {
                    b0: words::get_u32(left, 8),
                    b1: words::get_u32(left, 12),
                    b2: words::get_u32(left, 16),
                    a1: words::get_u32(left, 20),
                    a2: words::get_u32(left, 24),
                },
            },
        }
    }

    // The record at the front of the bytes that are left.
    #[tactic(auto, unfolding(crate::specs::Records::read_record), using(crate::proofs::Entries::kind_there, crate::proofs::Entries::stage_read, crate::proofs::Entries::note_entry, crate::proofs::Entries::two_there))]
    pub fn read(left: &[u8]) -> Result<Entry, Error>
        ensures { result ≡ read_record left.now }
    {
        let kind = record_question(left)?;
        match kind {
            Some(kind) => Ok(Entry::Stage(Record::of_kind(kind, left))),
            None => Ok(Entry::Note(usize::from(words::get_u16(left, 0)) - 2)),
        }
    }

    // Its kind.
    fn kind(self) -> Kind
        ensures { result ≡ record_kind self }
    {
        match self {
            Record::Gain { .. } => Kind::Gain,
            Record::MonoToStereo => Kind::MonoToStereo,
            Record::StereoToMono => Kind::StereoToMono,
            Record::Resample { .. } => Kind::Resample,
            Record::DcBlock { .. } => Kind::DcBlock,
            Record::Biquad { .. } => Kind::Biquad,
        }
    }

    // How many bytes its record has.
    #[tactic(auto, using(crate::specs::laws::Records::record_size, crate::specs::laws::RoundTrip::kind_fields))]
    pub fn size(self) -> usize
        ensures { result ≡ length (record_bytes self) }
    {
        4 + 4 * self.kind().field_count()
    }

    #[tactic(auto, using(crate::specs::laws::Records::record_size))]
    fn write_fields(self, out: &mut [u8])
        requires { length (record_bytes self) ≤ length out.old }
        ensures { out.new ≡ sets out.old 4 (words_bytes (fields_of self)) }
    {
        match self {
            Record::Gain { q15 } => words::put_u32(out, 4, q15.cast_unsigned()),
            Record::MonoToStereo => (),
            Record::StereoToMono => (),
            Record::Resample { in_rate, out_rate } => {
                words::put_u32(out, 4, in_rate);
                words::put_u32(out, 8, out_rate);
            }
            Record::DcBlock { corner } => words::put_u32(out, 4, corner),
            Record::Biquad { rate, bits } => {
                words::put_u32(out, 4, rate);
                words::put_u32(out, 8, bits.b0);
                words::put_u32(out, 12, bits.b1);
                words::put_u32(out, 16, bits.b2);
                words::put_u32(out, 20, bits.a1);
                words::put_u32(out, 24, bits.a2);
            }
        }
    }

    // The record's bytes, at the front of out.
    #[tactic(auto, using(crate::specs::laws::Records::record_size, crate::specs::laws::Records::few_record_fields))]
    pub fn write(self, out: &mut [u8])
        requires { length (record_bytes self) ≤ length out.old }
        ensures { out.new ≡ written (record_bytes self) out.old }
    {
        words::put_u16(out, 0, (self.size() - 2) as u16);
        words::put_u16(out, 2, u16::from(self.kind()));
        self.write_fields(out);
    }
}

// The records of bytes, in order: of each the bytes that are left at its first. The last may be cut short.
#[derive(Drop)]
pub struct Records<'a> {
    pub left: &'a [u8],
}

// What follows the record at the front.
fn after_next(left: &[u8]) -> &[u8]
    ensures { result.now ≡ after_next left.now }
{
    if left.len() < 2 {
        return &left[left.len()..];
    }
    let size = 2 + usize::from(words::get_u16(left, 0));
    &left[size.min(left.len())..]
}

impl<'a> Iterator for Records<'a> {
    type Item = &'a [u8];

    ghost next_gives = { YieldsFirstBy (λ bytes. bytes.now) (λ s. records s.left.now) };

    ghost remaining = { item_count (λ s. records s.left.now) };

    #[tactic(auto, using(crate::specs::laws::Records::records_end, crate::specs::laws::Records::records_next))]
    fn next(&mut self) -> Option<&'a [u8]> {
        let left = self.left;
        if left.is_empty() {
            return None;
        }
        self.left = after_next(left);
        Some(left)
    }
}
