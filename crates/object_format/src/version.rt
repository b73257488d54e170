//! The versions of the formats. The newest is written, and each is read.

ghost use Rattle.std.specs.Prelude.{◌≡◌, ◌≤◌, ◌⊎◌};
ghost use Rattle.object_format.specs.Version.{number_of, most_code, max_code, version_of, version_numbered, code_offset};

/// The most bytes of a function's code.
pub const MAX_CODE: usize = 16_777_216;

/// The most bytes of a function's code in version 1.
const MAX_CODE_ONE: usize = 65_535;

/// A version of the formats.
#[derive(Clone, Copy, Debug, PartialEq, Eq)]
pub enum Version {
    /// The length of a function's code has two bytes.
    One,
    /// It has four, and the code may have up to [`MAX_CODE`] bytes.
    Two,
}

impl Version {
    /// The number that stands behind the magic of a file.
    pub fn number(self) -> u16
        ensures { result ≡ number_of self }
    {
        match self {
            Version::One => 1,
            Version::Two => 2,
        }
    }

    /// The version with a number, which is 1 or 2.
    pub fn numbered(number: u16) -> Version
        requires { (number ≡ 1) ⊎ (number ≡ 2) }
        ensures { result ≡ version_numbered number }
    {
        if number == 1 {
            Version::One
        } else {
            Version::Two
        }
    }

    /// The version with a number, unless it is above the newest one that is taken.
    pub(crate) fn of(newest: Version, number: u16) -> Option<Version>
        ensures { result ≡ version_of newest number }
    {
        match number {
            1 => Some(Version::One),
            2 => match newest {
                Version::One => None,
                Version::Two => Some(Version::Two),
            },
            _ => None,
        }
    }

    /// The most bytes that a function's code may have.
    pub fn max_code(self) -> usize
        ensures code { result ≡ most_code self }
        ensures most { result ≤ max_code }
    {
        match self {
            Version::One => MAX_CODE_ONE,
            Version::Two => MAX_CODE,
        }
    }

    /// The bytes of a function of an image before its code.
    pub fn code_offset(self) -> u64
        ensures { result ≡ code_offset self }
    {
        match self {
            Version::One => 5,
            Version::Two => 7,
        }
    }
}
