// Presets: the RAM from a text, and the text of a RAM.
ghost use Rattle.std.specs.Prelude.{◌≡◌};
ghost use Rattle.image.specs.Image.{loaded};
ghost use Rattle.preset.specs.Preset.{load_preset, written, write_preset};
ghost use Rattle.preset.specs.Replies.{writing_of};
ghost use Rattle.board.specs.Held.{loading_held, writing_held};

use crate::texts::Loading;
use refusals::Refusal;

#[unsafe(no_mangle)]
pub extern "C" fn bemulatsho_load_preset(text: &[u8], ram: &mut [u16]) -> Loading
    ensures { loaded (loading_held result) ram.new ≡ load_preset text.now ram.old }
{
    Loading::from(preset::load_preset(text, ram))
}

// How a text was written: 0 and its length, or the refusal and 0.
#[repr(C)]
#[derive(Clone, Copy)]
pub struct Writing {
    pub number: u8,
    pub length: usize,
}

impl From<Result<usize, Refusal>> for Writing {
    ghost from_gives = { λ wrote writing. writing_held writing ≡ writing_of wrote };

    fn from(wrote: Result<usize, Refusal>) -> Writing {
        match wrote {
            Ok(length) => Writing { number: 0, length },
            Err(refusal) => Writing {
                number: u8::from(refusal),
                length: 0,
            },
        }
    }
}

#[unsafe(no_mangle)]
pub extern "C" fn bemulatsho_write_preset(ram: &[u16], text: &mut [u8]) -> Writing
    ensures { written (writing_held result) text.new ≡ write_preset ram.now text.old }
{
    Writing::from(preset::write_preset(ram, text))
}
