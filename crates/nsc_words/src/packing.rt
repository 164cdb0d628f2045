// Two numbers in one word, and how they are read back.
ghost use Rattle.std.specs.Prelude.{◌≡◌, ℕ, ◌+◌, ◌*◌, ◌/◌, ◌%◌, ◌<◌, ◌≤◌, ◌^◌, Bool, ◌==◌};
ghost use Rattle.nsc_words.specs.Packing.{shape_word, size_word};

/// The word of a kind, below 256, and of the length of a key, at most 1,024 bytes.
pub fn shape(kind: u32, key_len: u32) -> u64
    requires kind { kind < 256 }
    requires key { key_len ≤ 1024 }
    ensures { result ≡ shape_word kind key_len }
{
    u64::from(kind) * 65_536 + u64::from(key_len)
}

/// The kind in the word of a kind and a key's length.
pub fn shape_kind(word: u64) -> u32
    ensures value { result ≡ word / 65536 % 2 ^ 32 }
    ensures undoes { (kind key : ℕ) → kind < 256 → key ≤ 1024 → word ≡ shape_word kind key → result ≡ kind }
{
    (word / 65_536 % 4_294_967_296) as u32
}

/// The key's length in the word of a kind and a key's length.
pub fn shape_len(word: u64) -> u32
    ensures value { result ≡ word % 65536 }
    ensures undoes { (kind key : ℕ) → key ≤ 1024 → word ≡ shape_word kind key → result ≡ key }
{
    (word % 65_536) as u32
}

/// The word of a reply's length in bytes, and of whether it is a not-found reply.
pub fn size_word(reply_len: u32, not_found: bool) -> u64
    ensures { result ≡ size_word reply_len not_found }
{
    u64::from(reply_len) * 2 + u64::from(not_found)
}

/// The length in the word of a reply's length.
pub fn size_len(word: u64) -> u32
    ensures value { result ≡ word / 2 % 2 ^ 32 }
    ensures undoes { (reply : ℕ) (not_found : Bool) → reply ≤ 65536 → word ≡ size_word reply not_found → result ≡ reply }
{
    (word / 2 % 4_294_967_296) as u32
}

/// Whether the word of a reply's length says that it is a not-found reply.
pub fn size_not_found(word: u64) -> bool
    ensures value { result ≡ (word % 2 == 1) }
    ensures undoes { (reply : ℕ) (not_found : Bool) → word ≡ size_word reply not_found → result ≡ not_found }
{
    word % 2 == 1
}
