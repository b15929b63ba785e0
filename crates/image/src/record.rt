// One line of Intel HEX.
ghost use Rattle.std.specs.Prelude.{◌≡◌, ◌+◌, ◌*◌, ◌≤◌, ◌<◌, length, take, drop, Ok, Err};
ghost use Rattle.refusals.specs.declared.Refusal.TheVariants.{NoSuchRecordType};
ghost use Rattle.image.specs.IntelHex as spec;
ghost use Rattle.image.specs.Replies.{type_of, head_of, type_read};

use crate::digits::{all_digits, byte_at, sum};
use refusals::Refusal;

#[derive(Clone, Copy, PartialEq, Eq, Debug)]
pub enum RecordType {
    Data,
    End,
}

impl From<RecordType> for u8 {
    ghost from_gives = { λ kind n. n ≡ type_of kind };

    fn from(kind: RecordType) -> u8 {
        match kind {
            RecordType::Data => 0,
            RecordType::End => 1,
        }
    }
}

impl TryFrom<u8> for RecordType {
    type Error = Refusal;

    ghost try_from_gives = { λ n read. read ≡ type_read n };

    fn try_from(n: u8) -> Result<RecordType, Refusal> {
        match n {
            0 => Ok(RecordType::Data),
            1 => Ok(RecordType::End),
            _ => Err(Refusal::NoSuchRecordType),
        }
    }
}

// What a record says of itself: its type, the address of its first byte, and how many bytes it has.
#[derive(Clone, Copy, PartialEq, Eq, Debug)]
pub struct RecordHead {
    pub kind: RecordType,
    pub address: u16,
    pub length: u8,
}

// Where the line's ending begins.
#[tactic(auto, unfolding(crate::specs::IntelHex::ending))]
pub(crate) fn ending(line: &[u8]) -> usize
    requires { 2 ≤ length line.now }
    ensures { result ≡ spec.ending line.now }
{
    let feed = line.len() - 1;
    if line[feed - 1] == b'\r' {
        feed - 1
    } else {
        feed
    }
}

// What stands between the colon and the ending.
pub(crate) fn characters(line: &[u8]) -> &[u8]
    requires { 3 ≤ length line.now }
    ensures { result.now ≡ spec.characters line.now }
{
    let end = ending(line);
    &line[1..end]
}

#[tactic(auto, using(crate::proofs::Characters::digits), unfolding(crate::specs::IntelHex::formed))]
pub(crate) fn formed(line: &[u8]) -> bool
    ensures { result ≡ spec.formed line.now }
{
    let n = line.len();
    if n < 12 || line[0] != b':' || line[n - 1] != b'\n' || !all_digits(characters(line)) {
        return false;
    }
    let length = byte_at(line, 1);
    ending(line) == 11 + 2 * usize::from(length) && !(byte_at(line, 7) == 1 && length != 0)
}

// What a record with a good check byte says of itself.
#[tactic(auto, unfolding(crate::specs::IntelHex::said))]
pub(crate) fn said(line: &[u8]) -> Result<RecordHead, Refusal>
    requires { 12 ≤ length line.now }
    ensures { head_of result ≡ spec.said line.now }
{
    Ok(RecordHead {
        kind: RecordType::try_from(byte_at(line, 7))?,
        address: u16::from_be_bytes([byte_at(line, 3), byte_at(line, 5)]),
        length: byte_at(line, 1),
    })
}

#[tactic(auto, using(crate::proofs::Records::heads), unfolding(crate::specs::IntelHex::record_head))]
pub fn record_head(line: &[u8]) -> Result<RecordHead, Refusal>
    ensures { head_of result ≡ spec.record_head line.now }
{
    if !formed(line) {
        return Err(Refusal::BadRecord);
    }
    if sum(characters(line)) != 0 {
        return Err(Refusal::BadCheckByte);
    }
    said(line)
}

// The characters of so many data bytes.
pub(crate) fn data_characters(line: &[u8], bytes: u8) -> &[u8]
    requires { 9 + 2 * bytes ≤ length line.now }
    ensures content { result.now ≡ take (2 * bytes) (drop 9 line.now) }
    ensures allocation { result.ref_ptr.0 ≡ line.entry.ref_ptr.0 }
    ensures place { result.ref_ptr.1 ≡ line.entry.ref_ptr.1 + 9 }
{
    let end = 9 + 2 * usize::from(bytes);
    &line[9..end]
}

// The record's data characters, the very part of the caller's line.
#[tactic(auto, using(crate::proofs::Records::parts))]
pub fn data_part(line: &[u8]) -> &[u8]
    ensures content { result.now ≡ spec.data_part line.now }
    ensures allocation { result.ref_ptr.0 ≡ line.entry.ref_ptr.0 }
    ensures place { result.ref_ptr.1 ≡ line.entry.ref_ptr.1 + spec.data_start line.now }
{
    match record_head(line) {
        Ok(head) => data_characters(line, head.length),
        Err(_) => &line[0..0],
    }
}
