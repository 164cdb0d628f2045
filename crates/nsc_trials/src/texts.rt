//! The files of the trials, and the replies that they ask for, typed by hand from the layout of replies.

/// A file in which root is the one user.
pub const BASH: &[u8] = b"root:x:0:0:root:/root:/bin/bash\n";

/// That file with another shell.
pub const SH: &[u8] = b"root:x:0:0:root:/root:/bin/sh\n";

/// A file of two users.
pub const BOTH: &[u8] = b"root:x:0:0:root:/root:/bin/bash\nann:x:1000:100:Ann:/home/ann:/bin/sh\n";

/// That file with another shell of root, and another id of ann.
pub const MOVED: &[u8] = b"root:x:0:0:root:/root:/bin/sh\nann:x:1001:100:Ann:/home/ann:/bin/sh\n";

/// The reply on root with the first shell: 64 bytes.
pub const ROOT_BASH: &[u8] =
    b"\x02\0\0\0\x01\0\0\0\x05\0\0\0\x02\0\0\0\0\0\0\0\0\0\0\0\x05\0\0\0\x06\0\0\0\x0a\0\0\0root\0x\0root\0/root\0/bin/bash\0";

/// With the second one: 62 bytes.
pub const ROOT_SH: &[u8] =
    b"\x02\0\0\0\x01\0\0\0\x05\0\0\0\x02\0\0\0\0\0\0\0\0\0\0\0\x05\0\0\0\x06\0\0\0\x08\0\0\0root\0x\0root\0/root\0/bin/sh\0";

/// The reply on ann with her first id.
pub const ANN: &[u8] =
    b"\x02\0\0\0\x01\0\0\0\x04\0\0\0\x02\0\0\0\xe8\x03\0\0\x64\0\0\0\x04\0\0\0\x0a\0\0\0\x08\0\0\0ann\0x\0Ann\0/home/ann\0/bin/sh\0";

/// With her second one.
pub const ANN_MOVED: &[u8] =
    b"\x02\0\0\0\x01\0\0\0\x04\0\0\0\x02\0\0\0\xe9\x03\0\0\x64\0\0\0\x04\0\0\0\x0a\0\0\0\x08\0\0\0ann\0x\0Ann\0/home/ann\0/bin/sh\0";

/// The reply where no user was found: 36 bytes.
pub const ABSENT: &[u8] =
    b"\x02\0\0\0\0\0\0\0\0\0\0\0\0\0\0\0\xff\xff\xff\xff\xff\xff\xff\xff\0\0\0\0\0\0\0\0\0\0\0\0";
