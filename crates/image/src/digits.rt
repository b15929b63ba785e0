// Bytes spelled by hexadecimal characters.
ghost use Rattle.std.specs.Prelude.{◌≡◌, ◌+◌, ◌%◌, ◌<◌, fold, nat_lt, length, IfSome};
ghost use Rattle.std.specs.List.{list_all};
ghost use Rattle.std.specs.Iterator.{YieldsFirst, item_count};
ghost use Rattle.image.specs.Hexadecimal as spec;
ghost use Rattle.image.specs.Replies.{digit_of};

// The value of a digit.
#[tactic(auto, unfolding(crate::specs::Hexadecimal::digit))]
pub(crate) fn digit(c: u8) -> Option<u8>
    ensures value { digit_of result ≡ spec.digit c }
    ensures small { IfSome result (λ d. d < 16) }
{
    char::from(c).to_digit(16).map(|d| d as u8)
}

// The byte that two characters spell; one that is no digit counts as 16, and no line with such a character is taken.
#[tactic(auto, unfolding(crate::specs::Hexadecimal::byte))]
pub(crate) fn byte(high: u8, low: u8) -> u8
    ensures { result ≡ spec.byte high low }
{
    let high = digit(high).unwrap_or(16);
    let low = digit(low).unwrap_or(16);
    high.wrapping_mul(16).wrapping_add(low)
}

#[tactic(auto, unfolding(crate::specs::Hexadecimal::byte_at))]
pub(crate) fn byte_at(line: &[u8], place: usize) -> u8
    requires { place + 1 < length line.now }
    ensures { result ≡ spec.byte_at line.now place }
{
    byte(line[place], line[place + 1])
}

// Whether a character is a digit.
pub(crate) fn is_digit(c: u8) -> bool
    ensures { result ≡ nat_lt (spec.digit c) 16 }
{
    digit(c).is_some()
}

pub(crate) fn all_digits(characters: &[u8]) -> bool
    ensures { result ≡ list_all (λ c. nat_lt (spec.digit c) 16) characters.now }
{
    characters.iter().all(|c| is_digit(*c))
}

// The bytes that characters spell, two a byte.
#[derive(Drop)]
pub(crate) struct Bytes<'a>(pub(crate) &'a [u8]);

impl<'a> Iterator for Bytes<'a> {
    type Item = u8;

    ghost next_gives = { YieldsFirst (λ s. spec.bytes_of s.0.now) };

    ghost remaining = { item_count (λ s. spec.bytes_of s.0.now) };

    #[tactic(auto, unfolding(crate::specs::Hexadecimal::bytes_of))]
    fn next(&mut self) -> Option<u8> {
        match self.0 {
            [high, low, rest @ ..] => {
                self.0 = rest;
                Some(byte(*high, *low))
            }
            _ => None,
        }
    }
}

// The sum of the bytes that the characters spell, modulo 256.
pub(crate) fn sum(characters: &[u8]) -> u8
    ensures { result ≡ fold (λ sum byte. (sum + byte) % 256) 0 (spec.bytes_of characters.now) }
{
    Bytes(characters).fold(0, |sum: u8, byte| sum.wrapping_add(byte))
}
