//! Files, requests and replies, typed by hand from their layouts.

/// A file in which root is the one user.
pub const ROOT_LINE: &[u8] = b"root:x:0:0:root:/root:/bin/bash\n";

/// The request for root by name: 17 bytes.
pub const ASK_ROOT: &[u8] = b"\x02\0\0\0\0\0\0\0\x05\0\0\0root\0";

/// The reply on root: 64 bytes.
pub const ROOT_BASH: &[u8] =
    b"\x02\0\0\0\x01\0\0\0\x05\0\0\0\x02\0\0\0\0\0\0\0\0\0\0\0\x05\0\0\0\x06\0\0\0\x0a\0\0\0root\0x\0root\0/root\0/bin/bash\0";

/// The reply where no user was found: 36 bytes.
pub const ABSENT: &[u8] =
    b"\x02\0\0\0\0\0\0\0\0\0\0\0\0\0\0\0\xff\xff\xff\xff\xff\xff\xff\xff\0\0\0\0\0\0\0\0\0\0\0\0";
