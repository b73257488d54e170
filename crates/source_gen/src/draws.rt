//! Numbers drawn from a seed: a state, of which each draw gives the upper bits.

ghost use Rattle.std.specs.Prelude.{◌≡◌, ◌<◌, ◌^◌};
ghost use Rattle.source_gen.specs.Draws.{drawn, next_state};

/// What is left to draw.
#[derive(Drop)]
pub(crate) struct Draws {
    pub state: u32,
    ghost below: { state < 2 ^ 31 },
}

impl Draws {
    /// The draws from a seed.
    pub fn new(seed: u32) -> Draws
        requires { seed < 2 ^ 31 }
        ensures { result.state ≡ seed }
    {
        Draws { state: seed }
    }

    /// The next number.
    pub fn draw(&mut self) -> u32
        ensures number { result ≡ drawn 0 self.old.state }
        ensures state { self.new.state ≡ next_state self.old.state }
    {
        self.state = ((self.state as u64 * 1_103_515_245 + 12_345) % 0x8000_0000) as u32;
        self.state / 65_536
    }
}
