// Texts of Intel HEX: an image filled from one, and one line as a record.
ghost use Rattle.std.specs.Prelude.{◌≡◌};
ghost use Rattle.device.specs.Device.{upd77p20};
ghost use Rattle.image.specs.IntelHex.{intel_hex};
ghost use Rattle.image.specs.Image.{loaded, load};
ghost use Rattle.image.specs.Replies.{head_of, loading_of};
ghost use Rattle.board.specs.Held.{loading_held};
ghost use Rattle.board.specs.RecordInLine.{head_in_line, record_in_line};

use image::{Fault, RecordHead};
use refusals::Refusal;

// How reading a text ended: the refusal or 0, and the line that decided, counted from 1 (0 if none was looked at).
#[repr(C)]
#[derive(Clone, Copy)]
pub struct Loading {
    pub number: u8,
    pub line: usize,
}

impl From<Result<usize, Fault>> for Loading {
    ghost from_gives = { λ read loading. loading_held loading ≡ loading_of read };

    fn from(read: Result<usize, Fault>) -> Loading {
        match read {
            Ok(line) => Loading { number: 0, line },
            Err(fault) => Loading {
                number: u8::from(fault.refusal),
                line: fault.line,
            },
        }
    }
}

#[unsafe(no_mangle)]
pub extern "C" fn bemulatsho_load_program(text: &[u8], image: &mut [u32]) -> Loading
    ensures { loaded (loading_held result) image.new ≡ load intel_hex 4 upd77p20.words text.now image.old }
{
    Loading::from(image::load_program(text, image))
}

#[unsafe(no_mangle)]
pub extern "C" fn bemulatsho_load_data(text: &[u8], image: &mut [u16]) -> Loading
    ensures { loaded (loading_held result) image.new ≡ load intel_hex 2 upd77p20.cells text.now image.old }
{
    Loading::from(image::load_data(text, image))
}

// What a line says as a record, and where in the line its data characters stand.
#[repr(C)]
#[derive(Clone, Copy, Default)]
pub struct Record {
    pub number: u8,
    pub kind: u8,
    pub address: u16,
    pub bytes: u8,
    pub offset: usize,
    pub length: usize,
}

impl From<Result<RecordHead, Refusal>> for Record {
    ghost from_gives = { λ read held. held ≡ head_in_line (head_of read) };

    fn from(read: Result<RecordHead, Refusal>) -> Record {
        match read {
            Ok(head) => Record {
                number: 0,
                kind: u8::from(head.kind),
                address: head.address,
                bytes: head.length,
                offset: 9,
                length: 2 * usize::from(head.length),
            },
            Err(refusal) => Record {
                number: u8::from(refusal),
                ..Record::default()
            },
        }
    }
}

#[tactic(auto, unfolding(crate::specs::RecordInLine::record_in_line, image::specs::IntelHex::data_start))]
#[unsafe(no_mangle)]
pub extern "C" fn bemulatsho_read_record(line: &[u8]) -> Record
    ensures { result ≡ record_in_line line.now }
{
    Record::from(image::record_head(line))
}
