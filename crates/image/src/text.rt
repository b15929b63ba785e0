// A text of records, put byte by byte at their addresses.
ghost use Rattle.std.specs.Prelude.{◌≡◌, map, ◌+◌, ◌<◌, ◌==◌, length, slice_index, position, is_none, IsTrue, IfOk};
ghost use Rattle.std.specs.List.{list_any};
ghost use Rattle.std.specs.Iterator.{YieldsFirstRef, item_count};
ghost use Rattle.image.specs.Hexadecimal.{bytes_of};
ghost use Rattle.image.specs.Lines as lines;
ghost use Rattle.image.specs.IntelHex.{intel_hex};
ghost use Rattle.image.specs.Image as spec;
ghost use Rattle.image.specs.Replies.{type_of, number_given, loading_of, marks, put, number_put};

use crate::digits::Bytes;
use crate::record::{RecordType, data_characters, record_head};
use refusals::Refusal;

// Why a text is refused, and the line that decided, counted from 1 (0 if none was looked at).
#[derive(Clone, Copy, PartialEq, Eq, Debug)]
pub struct Fault {
    pub refusal: Refusal,
    pub line: usize,
}

// Where the first line feed is.
pub(crate) fn line_feed(text: &[u8]) -> Option<usize>
    ensures { result ≡ position (λ c. c == lines.line_feed) text.now }
{
    text.iter().position(|c| *c == b'\n')
}

// How many characters the first line has, with its ending.
#[tactic(auto, using(crate::proofs::Lines::lengths))]
pub(crate) fn line_length(text: &[u8]) -> usize
    ensures { result ≡ lines.line_length text.now }
{
    match line_feed(text) {
        Some(feed) => feed + 1,
        None => text.len(),
    }
}

// The lines of a text, each with its ending.
#[derive(Drop)]
pub(crate) struct Lines<'a>(pub(crate) &'a [u8]);

impl<'a> Iterator for Lines<'a> {
    type Item = &'a [u8];

    ghost next_gives = { YieldsFirstRef (λ s. lines.lines s.0.now) };

    ghost remaining = { item_count (λ s. lines.lines s.0.now) };

    #[tactic(auto, using(crate::proofs::Lines::cuts))]
    fn next(&mut self) -> Option<&'a [u8]> {
        let text = self.0;
        if text.is_empty() {
            return None;
        }
        let (line, rest) = text.split_at(line_length(text));
        self.0 = rest;
        Some(line)
    }
}

// Whether an address is in the image, with no byte given for it yet.
#[tactic(auto, using(crate::proofs::Giving::places))]
pub(crate) fn is_free(given: &[Option<u8>], address: usize) -> bool
    ensures value { result ≡ (slice_index (marks given.now) address == 256) }
    ensures inside { IsTrue result → address < length given.now }
{
    address < given.len() && given[address].is_none()
}

// Puts the bytes that the characters spell at their addresses, which are counted by hand: `enumerate` begins at 0.
pub(crate) fn give(characters: &[u8], start: u16, given: &mut [Option<u8>]) -> Result<(), Refusal>
    ensures { spec.given (number_given result) (marks given.new) ≡ spec.give start (bytes_of characters.now) (marks given.old) }
{
    let mut address = usize::from(start);
    for byte in Bytes(characters) {
        if !is_free(given, address) {
            return Err(Refusal::AddressNotOnce);
        }
        given[address] = Some(byte);
        address += 1;
    }
    Ok(())
}

// Whether no byte was given for some address.
pub(crate) fn missing(given: &[Option<u8>]) -> bool
    ensures { result ≡ list_any (λ byte. is_none byte) given.now }
{
    given.iter().any(|byte| byte.is_none())
}

// After the end record in line `line`, with text after it or not.
#[tactic(auto, using(crate::proofs::Giving::missings), unfolding(crate::specs::Image::ended))]
pub(crate) fn ended(line: usize, after: bool, given: &[Option<u8>]) -> Result<usize, Fault>
    requires { line < usize.MAX }
    ensures { loading_of result ≡ spec.ended line after (marks given.now) }
{
    if missing(given) {
        return Err(Fault {
            refusal: Refusal::AddressNotOnce,
            line,
        });
    }
    if after {
        return Err(Fault {
            refusal: Refusal::NoEndRecord,
            line: line + 1,
        });
    }
    Ok(line)
}

// After the last line of a text without an end record. `ended` and this have a definition each, whose lines they are; what they share is `missing`.
#[tactic(auto, using(crate::proofs::Giving::missings), unfolding(crate::specs::Image::unended))]
pub(crate) fn unended(line: usize, given: &[Option<u8>]) -> Fault
    ensures { loading_of (Err result) ≡ spec.unended line (marks given.now) }
{
    let refusal = if missing(given) {
        Refusal::AddressNotOnce
    } else {
        Refusal::NoEndRecord
    };
    Fault { refusal, line }
}

// Puts a line's bytes at their addresses, and says of which type its record is.
#[tactic(auto, using(crate::proofs::Walking::puts))]
pub(crate) fn take_line(line: &[u8], given: &mut [Option<u8>]) -> Result<RecordType, Refusal>
    ensures put { spec.given (number_put result) (marks given.new) ≡ put (intel_hex line.now) (marks given.old) }
    ensures last { IfOk result (λ kind. (intel_hex line.now).last ≡ (type_of kind == 1)) }
{
    let head = record_head(line)?;
    if head.kind == RecordType::Data {
        give(data_characters(line, head.length), head.address, given)?;
    }
    Ok(head.kind)
}

// The records of a text in turn; the line that ends a text that is taken. Lines are counted by hand: the count is asked for after the loop, too.
pub(crate) fn walk(text: &[u8], given: &mut [Option<u8>]) -> Result<usize, Fault>
    ensures { spec.walked (loading_of result) (marks given.new) ≡ spec.walk 0 (map intel_hex (lines.lines text.now)) (marks given.old) }
{
    let mut line = 0;
    let mut rest = Lines(text);
    while let Some(here) = rest.next() {
        line += 1;
        match take_line(here, given) {
            Ok(RecordType::Data) => {}
            Ok(RecordType::End) => return ended(line, rest.next().is_some(), given),
            Err(refusal) => return Err(Fault { refusal, line }),
        }
    }
    Err(unended(line, given))
}
