//! The tokens that are being given back.
ghost use Rattle.std.specs.Prelude.{◌≡◌, ◌==◌, position, vec_capacity};
ghost use Rattle.coord_core.specs.State.{has_byte, bytes_without};

// Whether the byte is among them.
pub fn has_byte(giving: &[u8], byte: u8) -> bool
    ensures { result ≡ has_byte byte giving.now }
{
    giving.iter().any(|given| *given == byte)
}

// Where the byte stands.
fn place_of(giving: &[u8], byte: u8) -> Option<usize>
    ensures { result ≡ position (λ x. x == byte) giving.now }
{
    giving.iter().position(|given| *given == byte)
}

// The byte is being given back no longer.
pub fn take_byte(giving: &mut Vec<u8>, byte: u8)
    ensures bytes { giving.new.items ≡ bytes_without byte giving.old.items }
    ensures capacity { vec_capacity giving.new ≡ vec_capacity giving.old }
{
    if let Some(at) = place_of(giving, byte) {
        let _ = giving.remove(at);
    }
}
