// Runs of bytes: how far one goes, and the number that digits write.
ghost use Rattle.std.specs.Prelude.{◌≡◌, ◌^◌, ◌<◌, ◌≤◌, length, IfSome, position, ◌==◌};
ghost use Rattle.std.specs.List.{position_or_len};
ghost use Rattle.text.specs.Reading.{letter_in, number32_in};
ghost use Rattle.text.specs.Texts.{decimal, number_of};

// The index of the first such byte, and none where it is missing.
fn index_of(bytes: &[u8], byte: u8) -> Option<usize>
    ensures { result ≡ position (λ b. b == byte) bytes.now }
{
    bytes.iter().position(|b| *b == byte)
}

// How many bytes stand before the first such byte; all of them where it is missing.
pub(crate) fn run_length(bytes: &[u8], stop: u8) -> usize
    ensures value { result ≡ position_or_len (λ b. b == stop) bytes.now }
    ensures bound { result ≤ length bytes.now }
{
    index_of(bytes, stop).unwrap_or(bytes.len())
}

// The number that decimal digits write, and none where a byte is no digit.
fn decimal_of(digits: &[u8]) -> Option<u64>
    requires { length digits.now ≤ 10 }
    ensures value { result ≡ decimal digits.now }
    ensures bound { IfSome result (λ n. n < 10 ^ 10) }
{
    let mut n = 0u64;
    for b in digits {
        if !b.is_ascii_digit() {
            return None;
        }
        n = n * 10 + u64::from(*b - b'0');
    }
    Some(n)
}

// The number that 1 to 10 decimal digits write, and none for any other field.
pub fn number_of(field: &[u8]) -> Option<u64>
    ensures value { result ≡ number_of field.now }
    ensures bound { IfSome result (λ n. n < 10 ^ 10) }
{
    match field.len() {
        1..=10 => decimal_of(field),
        _ => None,
    }
}

// The number that 1 to 10 decimal digits write, if it fits 32 bits, and none for any other field.
pub fn number32_of(field: &[u8]) -> Option<u32>
    ensures { result ≡ number32_in field.now }
{
    u32::try_from(number_of(field)?).ok()
}

// The one byte of a field, read as a character, and none for any other field.
pub(crate) fn letter_of(field: &[u8]) -> Option<char>
    ensures { result ≡ letter_in field.now }
{
    match field {
        [byte] => Some(char::from(*byte)),
        _ => None,
    }
}
