// The desk program: notes RATE CHANNELS RECIPE prints a line for each note of a recipe, or the number of its refusal (document 02, Q-4).
#![tactic(auto)]

ghost use Rattle.std.specs.Prelude.{◌≡◌, ◌*◌, ◌≤◌, length, take};
ghost use Rattle.io.specs.Counts.{IsPrefixLen};
ghost use Rattle.note_lines.specs.Page.{page_of};

use std::env::FillError;
use std::io;
use std::rt::{Env, Files};

// Room for a byte more than a recipe may have, so that a longer file is told.
const ROOM: usize = desk::MAX_FILE + 1;

// The page at the front of out, in room that is always enough, and how many bytes it has.
fn fill_page(rate: &[u8], channels: &[u8], recipe: &[u8], out: &mut [u8]) -> usize
    requires { (2 * length recipe.now ≤ length out.old) × (3 ≤ length out.old) }
    ensures count { IsPrefixLen result out.new }
    ensures page { take result out.new ≡ page_of rate.now channels.now recipe.now }
{
    note_lines::page(rate, channels, recipe, out).unwrap_or(0)
}

// Prints the page of the file that path names, with room for twice as many bytes as of the file. Both are lent as arrays: lent as
// slices where they are made, the proof would have to count their elements.
fn run<R: Files + Print + Eprint>(
    rt: &R,
    rate: &[u8],
    channels: &[u8],
    path: &[u8],
    bytes: &mut [u8; ROOM],
    out: &mut [u8; 2 * ROOM],
) -> io::Result<()> {
    let Some(count) = files::read_file(rt, path, bytes) else {
        return Ok(());
    };
    let n = fill_page(rate, channels, &bytes[..count], out);
    rt.write_all(&out[..n])
}

fn with_room<R: Files + Print + Eprint>(
    rt: &R,
    rate: &[u8],
    channels: &[u8],
    path: &[u8],
) -> io::Result<()> {
    let mut bytes = [0u8; ROOM];
    let mut out = [0u8; 2 * ROOM];
    run(rt, rate, channels, path, &mut bytes, &mut out)
}

// Whether there is an argument of this number; the program's name is number 0.
fn is_given<R: Env>(rt: &R, number: usize) -> bool {
    let mut first = [0u8; 1];
    !matches!(rt.arg(number, &mut first), Err(FillError::NotPresent))
}

// An argument at the front of a buffer, and how many bytes it has. One that is longer than the buffer counts as empty.
fn argument<R: Env>(rt: &R, number: usize, buf: &mut [u8]) -> usize
    ensures { IsPrefixLen result buf.new }
{
    rt.arg(number, buf).unwrap_or(0)
}

// An argument that is longer than its buffer counts as empty, and so as no number.
fn main(rt: HostRuntime) -> io::Result<()> {
    if !is_given(&rt, 3) || is_given(&rt, 4) {
        return eprintln!(rt; "notes RATE CHANNELS RECIPE");
    }
    let mut rate = [0u8; 4096];
    let r = argument(&rt, 1, &mut rate);
    let mut channels = [0u8; 4096];
    let c = argument(&rt, 2, &mut channels);
    let mut path = [0u8; 4096];
    let Ok(p) = rt.arg(3, &mut path) else {
        return eprintln!(rt; "RECIPE: File name too long");
    };
    with_room(&rt, &rate[..r], &channels[..c], &path[..p])
}
