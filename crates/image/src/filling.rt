// A lent image filled from a text, whole or not at all.
ghost use Rattle.std.specs.Prelude.{◌≡◌, ℕ, ◌+◌, ◌*◌, ◌<◌, false, None, map, min, length, replicate};
ghost use Rattle.device.specs.Device.{upd77p20};
ghost use Rattle.image.specs.IntelHex.{intel_hex};
ghost use Rattle.image.specs.Image as spec;
ghost use Rattle.image.specs.Replies.{loading_of, marks};

use crate::text::{Fault, walk};
use device::{Chip, Upd77p20};
use refusals::Refusal;

// A cell of an image: so many bytes, low byte first.
pub(crate) trait Cell: Copy {
    const BYTES: usize;

    ghost BYTES: { ℕ };

    // The number that it holds.
    ghost number: { Self → ℕ };

    fn from_given(given: &[Option<u8>]) -> Self
        requires long { length given.now ≡ BYTES }
        requires whole { spec.missing (marks given.now) ≡ false }
        ensures { number result ≡ spec.value (marks given.now) };
}

impl Cell for u16 {
    const BYTES: usize = 2;

    ghost BYTES = { 2 };

    ghost number = { λ cell. cell };

    #[tactic(auto, using(crate::proofs::Fills::bytes))]
    fn from_given(given: &[Option<u8>]) -> u16 {
        u16::from_le_bytes([given[0].unwrap(), given[1].unwrap()])
    }
}

impl Cell for u32 {
    const BYTES: usize = 4;

    ghost BYTES = { 4 };

    ghost number = { λ cell. cell };

    #[tactic(auto, using(crate::proofs::Fills::bytes))]
    fn from_given(given: &[Option<u8>]) -> u32 {
        u32::from_le_bytes([
            given[0].unwrap(),
            given[1].unwrap(),
            given[2].unwrap(),
            given[3].unwrap(),
        ])
    }
}

pub(crate) fn fill<C: Cell>(given: &[Option<u8>], image: &mut [C])
    requires long { length given.now ≡ C.BYTES * length image.old }
    requires whole { spec.missing (marks given.now) ≡ false }
    ensures { map C.number image.new ≡ spec.cells C.BYTES (length image.old) (marks given.now) }
{
    let mut rest = given;
    for cell in image.iter_mut() {
        let (bytes, more) = rest.split_at(C::BYTES);
        *cell = C::from_given(bytes);
        rest = more;
    }
}

// Fills an image of so many cells, with room for the bytes that a text gives; the line that ends the text.
pub(crate) fn load<C: Cell>(
    text: &[u8],
    size: usize,
    given: &mut [Option<u8>],
    image: &mut [C],
) -> Result<usize, Fault>
    requires { given.old ≡ replicate (C.BYTES * size) None }
    ensures { spec.loaded (loading_of result) (map C.number image.new) ≡ spec.load intel_hex C.BYTES size text.now (map C.number image.old) }
{
    if image.len() != size {
        return Err(Fault {
            refusal: Refusal::WrongLength,
            line: 0,
        });
    }
    let line = walk(text, given)?;
    fill(given, image);
    Ok(line)
}

// Fills a lent program.
#[tactic(auto, using(crate::proofs::Loads::loads))]
pub fn load_program(text: &[u8], image: &mut [u32]) -> Result<usize, Fault>
    ensures { spec.loaded (loading_of result) image.new ≡ spec.load intel_hex 4 upd77p20.words text.now image.old }
{
    load(text, Upd77p20::WORDS as usize, &mut [None; 2048], image)
}

// Fills a lent data ROM.
#[tactic(auto, using(crate::proofs::Loads::loads))]
pub fn load_data(text: &[u8], image: &mut [u16]) -> Result<usize, Fault>
    ensures { spec.loaded (loading_of result) image.new ≡ spec.load intel_hex 2 upd77p20.cells text.now image.old }
{
    if image.len() != (Upd77p20::CELLS as usize) {
        return Err(Fault {
            refusal: Refusal::WrongLength,
            line: 0,
        });
    }
    load_cells(text, image)
}

// Fills a lent image of up to as many cells as a data ROM has.
#[tactic(auto, using(crate::proofs::Loads::loads))]
pub fn load_cells(text: &[u8], image: &mut [u16]) -> Result<usize, Fault>
    ensures { spec.loaded (loading_of result) image.new ≡ spec.load intel_hex 2 (min (length image.old) upd77p20.cells) text.now image.old }
{
    let size = image.len().min(Upd77p20::CELLS as usize);
    let mut given = [None; 1024];
    load(text, size, &mut given[..2 * size], image)
}
