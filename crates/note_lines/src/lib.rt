// The desk program's page: a line for each note of a recipe, or the refusal's number (document 02, Q-4).
#![tactic(auto)]

ghost use Rattle.std.specs.Prelude.{◌≡◌, map, ◌+◌, ◌*◌, ◌≤◌, ◌<◌, length};
ghost use Rattle.std.proofs.lemmas.List.Edits.{sets};
ghost use Rattle.pcm.specs.Frames.{flat, written};
ghost use Rattle.recipe.specs.Records.{records, Whole, WholeRecords};
ghost use Rattle.pipeline.specs.WritingBack.{write_told};
ghost use Rattle.note_lines.specs.Lines.{digit, hex_of, line_of, lines_of};
ghost use Rattle.note_lines.specs.Page.{desk_verdict, number_line, printed, page_of, page_call, page_told};
ghost use Rattle.recipe.specs.Notes.{note_at};
ghost use Rattle.note_lines.specs.laws.Lines.{line_here};
ghost use Rattle.note_lines.specs.laws.Page.{Readable};

use pcm::{Error, PcmFormat};
use recipe::Records;

mod arguments;

// A lower-case hexadecimal digit.
// Kept: written out, here and in `put_number`: `char::from_digit` answers an `Option` of a `char` that is no byte yet.
fn digit(n: u8) -> u8
    requires { n < 16 }
    ensures { result ≡ digit n }
{
    if n < 10 { b'0' + n } else { b'a' - 10 + n }
}

// Two digits for a byte, at `to`.
// Kept: a place beside the buffer, here and in what follows: a line is a text between other bytes, and the contracts say where it stands.
fn put_hex(b: u8, out: &mut [u8], to: usize)
    requires { to + 1 < length out.old }
    ensures { out.new ≡ sets out.old to (hex_of b) }
{
    out[to] = digit(b / 16);
    out[to + 1] = digit(b % 16);
}

// Two digits for each byte, from `to` on.
fn put_text(text: &[u8], out: &mut [u8], to: usize)
    requires { to + 2 * length text.now ≤ length out.old }
    ensures { out.new ≡ sets out.old to (flat (map hex_of text.now)) }
{
    for (i, b) in text.iter().enumerate() {
        put_hex(*b, out, to + 2 * i);
    }
}

// A note's line, from `to` on.
#[tactic(auto, using(crate::proofs::Stores::line_stored))]
fn put_line(kind: u16, text: &[u8], out: &mut [u8], to: usize)
    requires { to + (5 + 2 * length text.now) ≤ length out.old }
    ensures { out.new ≡ sets out.old to (line_of (record { kind = kind; text = text.now })) }
{
    put_text(&kind.to_be_bytes(), out, to);
    put_text(text, out, to + 4);
    out[to + 4 + 2 * text.len()] = b'\n';
}

// What stands in the record at the front after its kind.
fn text_at(left: &[u8]) -> &[u8]
    requires { Whole left.now }
    ensures text { result.now ≡ (note_at left.now).text }
    ensures short { length result.now < 65536 }
{
    let size = 2 + usize::from(words::get_u16(left, 0));
    &left[4..size]
}

// The line of the record at the front, if it is a note, from `to` on, and how many bytes that took.
#[tactic(auto, using(crate::proofs::Stores::note_line_size))]
fn put_record(left: &[u8], out: &mut [u8], to: usize) -> usize
    requires { Whole left.now × (to + length (line_here left.now) ≤ length out.old) }
    ensures size { result ≡ length (line_here left.now) }
    ensures stored { out.new ≡ sets out.old to (line_here left.now) }
{
    let kind = words::get_u16(left, 2);
    if !recipe::of_note(kind) {
        return 0;
    }
    let text = text_at(left);
    put_line(kind, text, out, to);
    5 + 2 * text.len()
}

// How many bytes the line of the record at the front has, if it is a note.
#[tactic(auto, using(crate::proofs::Stores::note_line_size))]
fn line_size(left: &[u8]) -> usize
    requires { Whole left.now }
    ensures { result ≡ length (line_here left.now) }
{
    if !recipe::of_note(words::get_u16(left, 2)) {
        return 0;
    }
    5 + 2 * text_at(left).len()
}

// How many bytes the lines of whole records have.
fn lines_size(recipe: &[u8]) -> usize
    requires { (WholeRecords (records recipe.now)) × (length recipe.now ≤ 1048576) }
    ensures { result ≡ length (lines_of recipe.now) }
{
    let mut size = 0;
    for left in (Records { left: recipe }) {
        size += line_size(left);
    }
    size
}

// The lines of whole records, at the front of out.
fn write_lines(recipe: &[u8], out: &mut [u8])
    requires { (WholeRecords (records recipe.now)) × (length (lines_of recipe.now) ≤ length out.old) }
    ensures { out.new ≡ written (lines_of recipe.now) out.old }
{
    let mut to = 0;
    for left in (Records { left: recipe }) {
        to += put_record(left, out, to);
    }
}

// Is the recipe within its limit, and does it open?
#[tactic(auto, unfolding(crate::specs::Page::desk_verdict))]
fn desk_question(format: PcmFormat, recipe: &[u8]) -> Result<(), Error>
    ensures { result ≡ desk_verdict format recipe.now }
{
    desk::open(format, recipe)?;
    Ok(())
}

// How many bytes the line of a refusal's number has.
#[tactic(auto, unfolding(crate::specs::Page::number_line))]
fn number_size(number: u16) -> usize
    ensures { result ≡ length (number_line number) }
{
    if number < 10 { 2 } else { 3 }
}

// A refusal's number and a line feed, at the front of out.
fn put_number(number: u16, out: &mut [u8])
    requires { (number < 100) × (length (number_line number) ≤ length out.old) }
    ensures { out.new ≡ written (number_line number) out.old }
{
    let mut to = 0;
    if number >= 10 {
        out[0] = digit((number / 10) as u8);
        to = 1;
    }
    out[to] = digit((number % 10) as u8);
    out[to + 1] = b'\n';
}

// How many bytes the page has that goes by this verdict.
fn page_size(verdict: Result<(), Error>, recipe: &[u8]) -> usize
    requires { Readable verdict recipe.now }
    ensures { result ≡ length (printed verdict recipe.now) }
{
    match verdict {
        Ok(()) => lines_size(recipe),
        Err(e) => number_size(e.number()),
    }
}

// That page, at the front of out.
fn write_page(verdict: Result<(), Error>, recipe: &[u8], out: &mut [u8])
    requires { Readable verdict recipe.now × (length (printed verdict recipe.now) ≤ length out.old) }
    ensures { out.new ≡ written (printed verdict recipe.now) out.old }
{
    match verdict {
        Ok(()) => write_lines(recipe, out),
        Err(e) => put_number(e.number(), out),
    }
}

// What the desk program prints, at the front of out: a line for each note of the recipe, or the number of the first refusal alone.
// Rate and channels are arguments as they were typed. Twice the recipe's bytes, and at least three, are always room enough.
pub fn page(rate: &[u8], channels: &[u8], recipe: &[u8], out: &mut [u8]) -> Result<usize, Error>
    ensures all { record { answer = result; out = out.new } ≡ page_call (page_of rate.now channels.now recipe.now) out.old }
    ensures told { write_told result ≡ page_told (page_of rate.now channels.now recipe.now) (length out.old) }
{
    let format = arguments::format(rate, channels);
    let verdict = desk_question(format, recipe);
    let needed = page_size(verdict, recipe);
    pcm::require_room(out, needed)?;
    write_page(verdict, recipe, out);
    Ok(needed)
}
