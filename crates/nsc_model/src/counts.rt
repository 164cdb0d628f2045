// Counts, where they end, and the limits of what is kept.
ghost use Rattle.std.specs.Prelude.{◌≡◌};
ghost use Rattle.nsc_model.specs.Machine.{next_count, reached};

/// Where every count ends: 2^62.
pub const LAST_COUNT: u64 = 4_611_686_018_427_387_904;

/// A key has at most `KEY_LIMIT` bytes (glibc's nscd-client.h).
pub const KEY_LIMIT: usize = 1_024;

/// A line of the gate has at most `LINE_LIMIT` bytes, its newline not counted.
pub const LINE_LIMIT: usize = 1_100;

/// A reply that is kept has at most `KEPT_LIMIT` bytes.
pub const KEPT_LIMIT: usize = 65_536;

/// The next count, which stays at its end.
pub fn next_count(count: u64) -> u64
    ensures { result ≡ next_count count }
{
    if count < LAST_COUNT {
        count + 1
    } else {
        LAST_COUNT
    }
}

/// Whether as many reloads as this reach the limit; `None` is the limit that no count reaches.
pub fn has_reached(limit: Option<u32>, reloads: u64) -> bool
    ensures { result ≡ reached limit reloads }
{
    match limit {
        Some(limit) => u64::from(limit) <= reloads,
        None => false,
    }
}
