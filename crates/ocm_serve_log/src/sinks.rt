ghost use Rattle.std.specs.Prelude.{◌≡◌};

use ocm_base::Sink;

/// Where the lines of a server's log go.
pub trait LogSink: Sink {
    /// Is told that another moment came, before lines are written.
    fn turn(&mut self)
        ensures taken { Self.taken self.new ≡ Self.taken self.old }
        ensures faults { Self.faults self.new ≡ Self.faults self.old };

    /// Is told, at a moment in whole seconds since the epoch, how many lines were left out so far: those that were to be
    /// written with the first that could not be, and all since. Some of the former may have been written.
    fn left_out(&mut self, lines: u64, moment: u64)
        ensures taken { Self.taken self.new ≡ Self.taken self.old }
        ensures faults { Self.faults self.new ≡ Self.faults self.old };
}
