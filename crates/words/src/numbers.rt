//! Names of files and numbers, as words of a command line spell them.

ghost use Rattle.std.specs.Prelude.{◌≡◌, ◌<◌, ◌≤◌, ◌-◌, ◌^◌, min, IfSome, IsTrue};
ghost use Rattle.std.specs.List.{list_all};
ghost use Rattle.words.specs.Numbers as spec;

// Whether a byte is a decimal digit.
pub(crate) fn is_digit(byte: u8) -> bool
    ensures { result ≡ spec.is_digit byte }
{
    byte >= b'0' && byte <= b'9'
}

fn is_name_byte(byte: u8) -> bool
    ensures { result ≡ spec.is_name_byte byte }
{
    is_digit(byte)
        || (byte >= b'A' && byte <= b'Z')
        || (byte >= b'a' && byte <= b'z')
        || byte == b'_'
        || byte == b'.'
}

fn are_name_bytes(bytes: &[u8]) -> bool
    ensures { result ≡ list_all spec.is_name_byte bytes.now }
{
    bytes.iter().all(|byte| is_name_byte(*byte))
}

fn are_digits(bytes: &[u8]) -> bool
    ensures { result ≡ list_all spec.is_digit bytes.now }
{
    bytes.iter().all(|byte| is_digit(*byte))
}

fn begins_with_dot(bytes: &[u8]) -> bool
    ensures { result ≡ spec.begins_with_dot bytes.now }
{
    match bytes {
        [] => false,
        [first, ..] => *first == b'.',
    }
}

/// Whether a word names a file: 1 to 80 bytes of letters, digits, `_` and `.`, the first no `.`.
pub(crate) fn is_name(word: &str) -> bool
    ensures { result ≡ spec.is_name word.now }
{
    let bytes = word.as_bytes();
    bytes.len() >= 1 && bytes.len() <= 80 && are_name_bytes(bytes) && !begins_with_dot(bytes)
}

// What decimal digits write, or the last value of a `u64` where that is less.
fn value_of(digits: &[u8]) -> u64
    requires { IsTrue (list_all spec.is_digit digits.now) }
    ensures { result ≡ min (spec.value_of digits.now) (2 ^ 64 - 1) }
{
    let mut value = 0u64;
    for digit in digits {
        value = value
            .saturating_mul(10)
            .saturating_add((*digit - b'0') as u64);
    }
    value
}

/// A number of 1 to 20 decimal digits, within a range.
pub(crate) fn number_in(least: u64, most: u64, word: &str) -> Option<u64>
    requires { most < 2 ^ 64 - 1 }
    ensures value { result ≡ spec.number_in least most word.now }
    ensures range { IfSome result (λ n. (least ≤ n) × (n ≤ most)) }
{
    let digits = word.as_bytes();
    if digits.is_empty() || digits.len() > 20 || !are_digits(digits) {
        return None;
    }
    let value = value_of(digits);
    if least <= value && value <= most {
        Some(value)
    } else {
        None
    }
}
