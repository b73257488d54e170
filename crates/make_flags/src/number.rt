//! The numbers of a pair of descriptors: few digits, so that each fits.

ghost use Rattle.std.specs.Prelude.{◌≡◌};
ghost use Rattle.std.specs.List.{list_all};
ghost use Rattle.std.specs.Char.{is_ascii_digit};
ghost use Rattle.make_flags.specs.Number as spec;

/// A number of a pair: 1 to 9 digits, and before them `-` or nothing.
#[derive(Clone, Copy)]
pub(crate) struct Number {
    pub minus: bool,
    pub digits: u32,
}

impl Number {
    /// Whether it is less than 0: minus nought is nought.
    pub fn is_negative(&self) -> bool
        ensures { result ≡ spec.is_negative self.now }
    {
        self.minus && self.digits != 0
    }
}

fn are_digits(bytes: &[u8]) -> bool
    ensures { result ≡ list_all is_ascii_digit bytes.now }
{
    bytes.iter().all(|byte| byte.is_ascii_digit())
}

// What 1 to 9 decimal digits write.
fn value_of(digits: &str) -> Option<u32>
    ensures { result ≡ spec.value_of digits.now }
{
    let bytes = digits.as_bytes();
    if bytes.is_empty() || bytes.len() > 9 || !are_digits(bytes) {
        return None;
    }
    digits.parse::<u32>().ok()
}

/// The number that a text is.
pub(crate) fn number_of(text: &str) -> Option<Number>
    ensures { result ≡ spec.number_of text.now }
{
    match text.strip_prefix("-") {
        Some(digits) => {
            let digits = value_of(digits)?;
            Some(Number {
                minus: true,
                digits,
            })
        }
        None => {
            let digits = value_of(text)?;
            Some(Number {
                minus: false,
                digits,
            })
        }
    }
}
