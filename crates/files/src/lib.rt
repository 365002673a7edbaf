// Files, for the programs.
#![tactic(auto)]

ghost use Rattle.std.specs.Prelude.{IfOk, IfSome, ◌<◌, length, take};
ghost use Rattle.std.specs.Io.{ReadsAtMost};
ghost use Rattle.std.specs.Io.KnownBytes.{Consumes, IsAtEnd};
ghost use Rattle.io.specs.Counts.{IsPrefixLen};

use std::fs::File;
use std::io::Read;
use std::rt::Files;
use std::{io, str};

// Reads until buf is full or the file ends, and gives how many bytes stand at its front.
// Kept: a `while`, since a read says how far it went; `read_exact` does not say how much a shorter file had.
pub fn fill<F: Read>(file: &mut F, buf: &mut [u8]) -> io::Result<usize>
    ensures bound { ReadsAtMost result buf.new }
    ensures bytes { IfOk result (λ n. Consumes (F.remaining file.old) (F.remaining file.new) (take n buf.new)) }
    ensures end { IfOk result (λ n. n < length buf.new → IsAtEnd (F.remaining file.new)) }
{
    let mut count: usize = 0;
    while count < buf.len() {
        let n = file.read(&mut buf[count..])?;
        if n == 0 {
            return Ok(count);
        }
        count += n;
    }
    Ok(count)
}

// Opens the file that path names, and reads it.
fn open_and_fill<R: Files>(rt: &R, path: &str, buf: &mut [u8]) -> io::Result<usize>
    ensures { ReadsAtMost result buf.new }
{
    let mut file = File::open(rt, path)?;
    fill(&mut file, buf)
}

// The first bytes of a file, as many as buf holds, and how many those are. None where it could not be read, and standard error says why.
// Kept: a count of the bytes in buf, as the library's `read` answers.
pub fn read_file<R: Files + Eprint>(rt: &R, path: &[u8], buf: &mut [u8]) -> Option<usize>
    ensures { IfSome result (λ n. IsPrefixLen n buf.new) }
{
    let Ok(path) = str::from_utf8(path) else {
        let _ = eprintln!(rt; "the path is not UTF-8");
        return None;
    };
    match open_and_fill(rt, path, buf) {
        Ok(count) => Some(count),
        Err(e) => {
            let _ = eprintln!(rt; "{path}: {e}");
            None
        }
    }
}
