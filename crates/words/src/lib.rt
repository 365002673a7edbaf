// Numbers of two, four and eight bytes, low byte first.
// Kept: a place in a slice in place of an array of the bytes: a record's fields are read one after another, and each caller would have to
// cut its bytes out first.
#![tactic(auto)]

ghost use Rattle.std.specs.Prelude.{◌≡◌, ◌+◌, ◌<◌, ◌≤◌, length, take, drop};
ghost use Rattle.std.proofs.lemmas.List.Edits.{sets};
ghost use Rattle.std.specs.Int.{w32};
ghost use Rattle.std.proofs.Common.{to_z};
ghost use Rattle.words.specs.Words.{word_at, word_bytes};

// The N bytes from i on.
fn bytes_at<const N: usize>(s: &[u8], i: usize) -> [u8; N]
    requires { i + N ≤ length s.now }
    ensures { result ≡ take N (drop i s.now) }
{
    let mut bytes = [0; N];
    bytes.copy_from_slice(&s[i..i + N]);
    bytes
}

// The bytes to those from i on.
fn put_bytes<const N: usize>(s: &mut [u8], i: usize, bytes: [u8; N])
    requires { i + N ≤ length s.old }
    ensures { s.new ≡ sets s.old i bytes.entry }
{
    s[i..i + N].copy_from_slice(&bytes);
}

// The number in the bytes i and i + 1.
pub fn get_u16(s: &[u8], i: usize) -> u16
    requires { i + 1 < length s.now }
    ensures { result ≡ word_at 2 i s.now }
{
    u16::from_le_bytes(bytes_at(s, i))
}

// The number in the four bytes from i on.
pub fn get_u32(s: &[u8], i: usize) -> u32
    requires { i + 3 < length s.now }
    ensures { result ≡ word_at 4 i s.now }
{
    u32::from_le_bytes(bytes_at(s, i))
}

// The number in the eight bytes from i on.
pub fn get_u64(s: &[u8], i: usize) -> u64
    requires { i + 7 < length s.now }
    ensures { result ≡ word_at 8 i s.now }
{
    u64::from_le_bytes(bytes_at(s, i))
}

// The signed number in the four bytes from i on, in two's complement.
pub fn get_i32(s: &[u8], i: usize) -> i32
    requires { i + 3 < length s.now }
    ensures { result ≡ to_z w32 (word_at 4 i s.now) }
{
    i32::from_le_bytes(bytes_at(s, i))
}

// The number x to the bytes i and i + 1.
pub fn put_u16(s: &mut [u8], i: usize, x: u16)
    requires { i + 1 < length s.old }
    ensures { s.new ≡ sets s.old i (word_bytes 2 x) }
{
    put_bytes(s, i, x.to_le_bytes());
}

// The number x to the four bytes from i on.
pub fn put_u32(s: &mut [u8], i: usize, x: u32)
    requires { i + 3 < length s.old }
    ensures { s.new ≡ sets s.old i (word_bytes 4 x) }
{
    put_bytes(s, i, x.to_le_bytes());
}

// The number x to the eight bytes from i on.
pub fn put_u64(s: &mut [u8], i: usize, x: u64)
    requires { i + 7 < length s.old }
    ensures { s.new ≡ sets s.old i (word_bytes 8 x) }
{
    put_bytes(s, i, x.to_le_bytes());
}
