// Clocks.
ghost use Rattle.std.specs.Prelude.{◌≡◌, ℕ, IfSome};
ghost use Rattle.std.specs.declared.option.Option.{Option};

/// A clock may give any reading.
pub trait Clock {
    /// The reading that it gives next, where it tells it.
    ghost next: { Self → Option ℕ };

    /// Whether one reading may lead from a clock to another, as far as it tells.
    ghost is_read: { Self → Self → Type 0 };

    /// Reads the clock, in ticks.
    fn now(&mut self) -> u64
        ensures reading { IfSome (next self.old) (λ reading. result ≡ reading) }
        ensures read { is_read self.old self.new };
}
