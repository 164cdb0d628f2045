// `Clock`: the trait of moments in whole seconds.
ghost use Rattle.std.specs.Prelude.{◌≡◌, ◌<◌, ◌≤◌, ◌^◌, ℕ};

/// Moments, in whole seconds.
pub trait Clock {
    // The moment that it told last.
    ghost latest: { Self → ℕ };

    /// The present moment, which is not before the one that was told last, and is below 2^62.
    fn now(&mut self) -> u64
        ensures latest { latest self.new ≡ result }
        ensures later { latest self.old ≤ result }
        ensures bound { result < 2 ^ 62 };
}
