// The hash of a request.
ghost use Rattle.std.specs.Prelude.{◌≡◌, ◌<◌, ◌≤◌, [], ◌∷◌};
ghost use Rattle.byteorder.specs.Endian.{little_bytes};
ghost use Rattle.nsc_words.specs.Hash.{hash_from, hash_of, hash_step};

// What a hash begins at.
const HASH_START: u32 = 5381;

/// The hash of a request of this kind, a number below 256, and this key.
pub fn hash(kind: u32, key: &[u8]) -> u32
    requires { kind < 256 }
    ensures { result ≡ hash_of kind key.now }
{
    hash_bytes(hash_kind(kind), key)
}

/// The hash of a kind, a number below 256, before the bytes of a key.
pub fn hash_kind(kind: u32) -> u32
    requires { kind < 256 }
    ensures { result ≡ hash_from 5381 (kind ∷ []) }
{
    hash_step(HASH_START, kind)
}

/// The hash with the first `count` bytes of a word more, at most eight, its lowest byte first.
pub fn hash_word(hash: u32, word: u64, count: usize) -> u32
    requires { count ≤ 8 }
    ensures { result ≡ hash_from hash (little_bytes count word) }
{
    hash_bytes(hash, &word.to_le_bytes()[..count])
}

// The hash with these bytes more.
fn hash_bytes(hash: u32, bytes: &[u8]) -> u32
    ensures { result ≡ hash_from hash bytes.now }
{
    bytes
        .iter()
        .fold(hash, |hash, byte| hash_step(hash, u32::from(*byte)))
}

// The hash with one byte more.
fn hash_step(hash: u32, byte: u32) -> u32
    ensures { result ≡ hash_step hash byte }
{
    hash.wrapping_mul(33).wrapping_add(byte)
}
