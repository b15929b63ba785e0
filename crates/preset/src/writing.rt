// The text of a lent RAM put into a lent buffer.
ghost use Rattle.std.specs.Prelude.{◌≡◌, ◌*◌, ◌≤◌, length};
ghost use Rattle.std.proofs.lemmas.List.Edits.{sets};
ghost use Rattle.image.specs.Image.{cell_bytes};
ghost use Rattle.preset.specs.Written.{text_of};
ghost use Rattle.preset.specs.Preset as spec;
ghost use Rattle.preset.specs.Replies.{writing_of};

use crate::sheet::Sheet;
use device::{Chip, Upd77p20};
use refusals::Refusal;

// The bytes of cells, low byte first.
pub(crate) fn put_cells(cells: &[u16], bytes: &mut [u8])
    requires { length bytes.old ≡ 2 * length cells.now }
    ensures { bytes.new ≡ cell_bytes 2 cells.now }
{
    for (i, cell) in cells.iter().enumerate() {
        let [low, high] = cell.to_le_bytes();
        bytes[2 * i] = low;
        bytes[2 * i + 1] = high;
    }
}

// The text of bytes at the beginning of a buffer; its length.
pub(crate) fn write_text(bytes: &[u8], buffer: &mut [u8]) -> usize
    requires { (length bytes.now ≤ 65536) × (length (text_of bytes.now) ≤ length buffer.old) }
    ensures buffer { buffer.new ≡ sets buffer.old 0 (text_of bytes.now) }
    ensures length { result ≡ length (text_of bytes.now) }
{
    let mut sheet = Sheet {
        text: buffer,
        at: 0,
    };
    sheet.put_text(bytes);
    sheet.at
}

// The length of the text that was written.
#[tactic(auto, using(crate::proofs::Buffers::writings))]
pub fn write_preset(ram: &[u16], text: &mut [u8]) -> Result<usize, Refusal>
    ensures { spec.written (writing_of result) text.new ≡ spec.write_preset ram.now text.old }
{
    if ram.len() != (Upd77p20::RAM as usize) || text.len() < 716 {
        return Err(Refusal::WrongLength);
    }
    let mut bytes = [0; 256];
    put_cells(ram, &mut bytes);
    Ok(write_text(&bytes, text))
}
