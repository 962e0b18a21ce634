//! What draws a world's next event.

ghost use Rattle.std.specs.Prelude.{◌<◌};

/// Says which of several events comes next.
pub trait Choices {
    /// A number below `below`, which is above 0.
    fn draw(&mut self, below: u64) -> u64
        requires { 0 < below }
        ensures { result < below };
}
