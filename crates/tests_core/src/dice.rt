//! What is drawn by chance in the tests.

ghost use Rattle.std.specs.Prelude.{◌<◌};

/// Numbers that look drawn by chance, the same at each run.
#[derive(Drop)]
pub(crate) struct Dice {
    state: u64,
}

impl Dice {
    pub(crate) fn new(state: u64) -> Dice {
        Dice { state }
    }

    /// Draws a number from 0 to `sides` - 1.
    pub(crate) fn roll(&mut self, sides: u32) -> u32
        requires { 0 < sides }
        ensures { result < sides }
    {
        self.state = self
            .state
            .wrapping_mul(6_364_136_223_846_793_005)
            .wrapping_add(1_442_695_040_888_963_407);
        let drawn = (self.state >> 33) as u32;
        drawn % sides
    }

    /// Draws `true` with a chance of one in `sides`.
    pub(crate) fn is_one_in(&mut self, sides: u32) -> bool
        requires { 0 < sides }
    {
        self.roll(sides) == 0
    }
}
