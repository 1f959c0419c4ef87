ghost use Rattle.std.specs.Prelude.{◌≡◌, ◌^◌, ◌<◌, ◌↔◌, IsTrue, length, slice_index};
ghost use Rattle.showfile.specs.Chain.{records, record_at, next_of, Sized, Clean};
ghost use Rattle.showfile.specs.Opening.{rest, Opened, Cases, Walked, Steps};
ghost use Rattle.std.specs.Iterator.{at_most};

use crate::refusal::FileRefusal;

// The bytes of a record.
pub const RECORD: usize = 32;

// The longest file, in bytes.
pub const LONGEST: usize = 65536;

// A lent show file with a place on its chain. The file is only read.
#[derive(Clone, Copy)]
pub struct ShowFile<'a> {
    bytes: &'a [u8],
    // The record that was given last; at first the head.
    at: u16,
    // How many records are still to come.
    left: u16,
}

// Byte `i`, or 0 beyond the end.
fn byte_at(bytes: &[u8], i: usize) -> u8
    ensures { result ≡ slice_index bytes.now i }
{
    bytes.get(i).copied().unwrap_or(0)
}

// The next index that record `i` holds.
fn next_index(bytes: &[u8], i: u16) -> u16
    ensures { result ≡ next_of bytes.now i }
{
    let start = RECORD * i as usize;
    u16::from_le_bytes([byte_at(bytes, start), byte_at(bytes, start + 1)])
}

// The bytes of record `i`.
fn record_at<'a>(bytes: &'a [u8], i: u16) -> &'a [u8]
    ensures { result.now ≡ record_at bytes.now i }
{
    let rest = bytes.get(RECORD * i as usize..).unwrap_or(&[]);
    rest.get(..RECORD).unwrap_or(rest)
}

// Whether the head holds nothing but a next index.
fn is_clean(bytes: &[u8]) -> bool
    ensures { IsTrue result ↔ Clean bytes.now }
{
    (2..RECORD).all(|i| byte_at(bytes, i) == 0)
}

// How many records the chain from `start` has. One pass: a chain that goes on for as many records as the file has never ends.
fn walk(bytes: &[u8], start: u16) -> Result<u16, FileRefusal>
    requires sized { Sized bytes.now }
    requires inside { start < records bytes.now }
    ensures { Walked bytes.now start result }
{
    let n = (bytes.len() / RECORD) as u16;
    let mut at = start;
    // How far the chain came is the answer, and each step needs the one before.
    for count in 0..n {
        let next = next_index(bytes, at);
        if next == 0 {
            return Ok(count);
        }
        if next >= n {
            return Err(FileRefusal::Outside(at));
        }
        at = next;
    }
    Err(FileRefusal::Endless)
}

// The checks of the length, the head and the chain, in this order.
fn checked<'a>(bytes: &'a [u8]) -> Result<ShowFile<'a>, FileRefusal>
    ensures { Cases bytes.now result }
{
    let len = bytes.len();
    if len == 0 || len > LONGEST || len % RECORD != 0 {
        return Err(FileRefusal::Length);
    }
    if !is_clean(bytes) {
        return Err(FileRefusal::Head);
    }
    let left = walk(bytes, 0)?;
    Ok(ShowFile { bytes, at: 0, left })
}

impl<'a> ShowFile<'a> {
    // Opens a file at the start of its chain of commands, or says why it is refused.
    pub fn open(bytes: &'a [u8]) -> Result<ShowFile<'a>, FileRefusal>
        ensures { Opened bytes.now result }
    {
        checked(bytes)
    }

    // How many records are still to come.
    pub fn remaining(&self) -> usize
        ensures value { result ≡ length (rest self.now) }
        ensures few { result < 2 ^ 16 }
    {
        self.left as usize
    }
}

impl<'a> Iterator for ShowFile<'a> {
    type Item = (u16, &'a [u8]);

    ghost next_gives = { Steps };

    ghost remaining = { λ s. at_most s.left };

    // The next record of the chain, with its index.
    fn next(&mut self) -> Option<(u16, &'a [u8])> {
        if self.left == 0 {
            return None;
        }
        let bytes = self.bytes;
        let at = next_index(bytes, self.at);
        let left = self.left - 1;
        *self = ShowFile { bytes, at, left };
        Some((at, record_at(bytes, at)))
    }
}
