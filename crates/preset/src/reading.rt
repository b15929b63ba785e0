// A lent RAM filled from a text.
ghost use Rattle.std.specs.Prelude.{◌≡◌};
ghost use Rattle.image.specs.Image.{loaded};
ghost use Rattle.image.specs.Replies.{loading_of};
ghost use Rattle.preset.specs.Preset.{load_preset};

use device::{Chip, Upd77p20};
use image::Fault;
use refusals::Refusal;

#[tactic(auto, using(crate::proofs::Buffers::loads))]
pub fn load_preset(text: &[u8], ram: &mut [u16]) -> Result<usize, Fault>
    ensures { loaded (loading_of result) ram.new ≡ load_preset text.now ram.old }
{
    if ram.len() != (Upd77p20::RAM as usize) {
        return Err(Fault {
            refusal: Refusal::WrongLength,
            line: 0,
        });
    }
    image::load_cells(text, ram)
}
