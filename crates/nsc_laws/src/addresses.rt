//! What is printed is read as it was.

ghost use Rattle.std.specs.Prelude.{◌≡◌, ◌<◌, ℕ, List, Some, All, length};
ghost use Rattle.nsc_base.specs.Addresses.{v4_of, v4_text, v6_of, v6_text};

/// Every IPv4 address, printed and read, is the same address.
pub fn printed_v4_is_read()
    ensures { (address : List ℕ) → length address ≡ 4 → All (λ n. n < 256) address → v4_of (v4_text address) ≡ Some address }
{}

/// Every IPv6 address, printed and read, is the same address.
pub fn printed_v6_is_read()
    ensures { (address : List ℕ) → length address ≡ 16 → All (λ n. n < 256) address → v6_of (v6_text address) ≡ Some address }
{}
