// A text of Intel HEX put into a buffer.
ghost use Rattle.std.specs.Prelude.{◌≡◌, [], ◌∷◌, ◌++◌, ◌+◌, ◌-◌, ◌*◌, ◌%◌, ◌<◌, ◌≤◌, fold, length, slice_set};
ghost use Rattle.std.proofs.lemmas.List.Edits.{sets};
ghost use Rattle.image.specs.Replies.{type_of};
ghost use Rattle.preset.specs.Written as spec;

use image::RecordType;

// A digit in capitals. By a comparison: `char::from_digit` keeps a text from being written many digits at a time (docs/SPEED.md, "Texts").
#[tactic(auto, unfolding(crate::specs::Written::capital))]
pub(crate) fn capital(digit: u8) -> u8
    requires { digit < 16 }
    ensures { result ≡ spec.capital digit }
{
    if digit < 10 {
        b'0' + digit
    } else {
        b'A' + (digit - 10)
    }
}

// The byte that makes the bytes of a record add up to 0 modulo 256. Head and data one after the other: a chain of both is walked byte by byte.
pub(crate) fn check_byte(head: &[u8], bytes: &[u8]) -> u8
    ensures { (result + fold (λ sum byte. (sum + byte) % 256) 0 (head.now ++ bytes.now)) % 256 ≡ 0 }
{
    let of_head = head.iter().fold(0u8, |sum, byte| sum.wrapping_add(*byte));
    let sum = bytes
        .iter()
        .fold(of_head, |sum, byte| sum.wrapping_add(*byte));
    sum.wrapping_neg()
}

// A lent buffer, and the place of its next character.
#[derive(Drop)]
pub(crate) struct Sheet<'a> {
    pub(crate) text: &'a mut [u8],
    pub(crate) at: usize,
}

impl<'a> Sheet<'a> {
    pub(crate) fn put(&mut self, character: u8)
        requires { self.old.at < length self.old.text.now }
        ensures text { self.new.text.now ≡ slice_set self.old.text.now self.old.at character }
        ensures at { self.new.at ≡ self.old.at + 1 }
        ensures room { length self.new.text.now ≡ length self.old.text.now }
        ensures same { self.new.text.ghost_name ≡ self.old.text.ghost_name }
    {
        self.text[self.at] = character;
        self.at += 1;
    }

    // A byte's two digits.
    #[tactic(auto, unfolding(crate::specs::Written::spelled))]
    pub(crate) fn put_byte(&mut self, byte: u8)
        requires { self.old.at + 2 ≤ length self.old.text.now }
        ensures text { self.new.text.now ≡ sets self.old.text.now self.old.at (spec.spelled (byte ∷ [])) }
        ensures at { self.new.at ≡ self.old.at + 2 }
        ensures room { length self.new.text.now ≡ length self.old.text.now }
        ensures same { self.new.text.ghost_name ≡ self.old.text.ghost_name }
    {
        self.put(capital(byte / 16));
        self.put(capital(byte % 16));
    }

    #[tactic(auto, using(crate::proofs::Stores::bytes))]
    pub(crate) fn put_bytes(&mut self, bytes: &[u8])
        requires { self.old.at + 2 * length bytes.now ≤ length self.old.text.now }
        ensures text { self.new.text.now ≡ sets self.old.text.now self.old.at (spec.spelled bytes.now) }
        ensures at { self.new.at ≡ self.old.at + 2 * length bytes.now }
        ensures room { length self.new.text.now ≡ length self.old.text.now }
        ensures same { self.new.text.ghost_name ≡ self.old.text.ghost_name }
    {
        for byte in bytes {
            self.put_byte(*byte);
        }
    }

    // A record with its check byte and its line feed.
    pub(crate) fn put_record(&mut self, kind: RecordType, address: u16, bytes: &[u8])
        requires { (length bytes.now < 256) × (self.old.at + 12 + 2 * length bytes.now ≤ length self.old.text.now) }
        ensures text { self.new.text.now ≡ sets self.old.text.now self.old.at (spec.record_line (type_of kind) address bytes.now) }
        ensures at { self.new.at ≡ self.old.at + 12 + 2 * length bytes.now }
        ensures room { length self.new.text.now ≡ length self.old.text.now }
        ensures same { self.new.text.ghost_name ≡ self.old.text.ghost_name }
    {
        let [high, low] = address.to_be_bytes();
        let head = [bytes.len() as u8, high, low, u8::from(kind)];
        self.put(b':');
        self.put_bytes(&head);
        self.put_bytes(bytes);
        self.put_byte(check_byte(&head, bytes));
        self.put(b'\n');
    }

    // The text of bytes, in records of sixteen, each by its place: of `chunks` it is not known, where a preset is written, that all have sixteen bytes.
    pub(crate) fn put_text(&mut self, bytes: &[u8])
        requires { (length bytes.now ≤ 65536) × (self.old.at + length (spec.text_of bytes.now) ≤ length self.old.text.now) }
        ensures text { self.new.text.now ≡ sets self.old.text.now self.old.at (spec.text_of bytes.now) }
        ensures at { self.new.at ≡ self.old.at + length (spec.text_of bytes.now) }
        ensures room { length self.new.text.now ≡ length self.old.text.now }
        ensures same { self.new.text.ghost_name ≡ self.old.text.ghost_name }
    {
        for record in 0..bytes.len().div_ceil(16) {
            let from = 16 * record;
            let end = bytes.len().min(from + 16);
            self.put_record(RecordType::Data, from as u16, &bytes[from..end]);
        }
        self.put_record(RecordType::End, 0, &[]);
    }
}
