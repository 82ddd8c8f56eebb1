ghost use Rattle.std.specs.Prelude.{◌≡◌, ◌<◌};
ghost use Rattle.made_input.specs.Draws.{drawn, stepped};

const FACTOR: u64 = 6_364_136_223_846_793_005;

const INCREMENT: u64 = 1_442_695_040_888_963_407;

/// The state that numbers are drawn from, one after another.
#[derive(Drop)]
pub(crate) struct Draws {
    pub state: u64,
}

impl Draws {
    /// A number below `n`, which is not 0, from the upper 31 bits of the next state.
    pub fn draw(&mut self, n: u32) -> u32
        requires { 0 < n }
        ensures number { result ≡ drawn n self.old.state }
        ensures below { result < n }
        ensures state { self.new.state ≡ stepped self.old.state }
    {
        self.state = self.state.wrapping_mul(FACTOR).wrapping_add(INCREMENT);
        ((self.state >> 33) % n as u64) as u32
    }
}
