// Numbers that are drawn.
ghost use Rattle.std.specs.Prelude.{◌≡◌, ◌<◌};
ghost use Rattle.bp_demo.specs.Draws.{drawn, next};

// What the generator multiplies by, and what it adds.
pub const MULTIPLIER: u64 = 6_364_136_223_846_793_005;

pub const INCREMENT: u64 = 1_442_695_040_888_963_407;

// The state of a linear congruential generator modulo 2^64. It begins as the seed.
#[derive(Debug, Drop)]
pub struct Draws {
    pub state: u64,
}

impl Draws {
    // Draws a number below this one.
    pub fn draw(&mut self, below: u32) -> u32
        requires { 0 < below }
        ensures state { self.new.state ≡ next self.old.state }
        ensures number { result ≡ drawn self.new.state below }
        ensures small { result < below }
    {
        self.state = self.state.wrapping_mul(MULTIPLIER).wrapping_add(INCREMENT);
        ((self.state >> 33) % u64::from(below)) as u32
    }
}
