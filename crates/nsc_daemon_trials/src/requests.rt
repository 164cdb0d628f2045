//! Requests, typed by hand from the layout of the protocol: the version, the type and the length of the key, four bytes each, and the key.
//! And lines for the gate.

/// The user root by name.
pub const ROOT: &[u8] = b"\x02\0\0\0\0\0\0\0\x05\0\0\0root\0";

/// The host localhost by name.
pub const LOCALHOST: &[u8] = b"\x02\0\0\0\x04\0\0\0\x0a\0\0\0localhost\0";

/// The group root by name.
pub const ROOT_GROUP: &[u8] = b"\x02\0\0\0\x02\0\0\0\x05\0\0\0root\0";

/// The service ssh over tcp by name.
pub const SSH: &[u8] = b"\x02\0\0\0\x10\0\0\0\x08\0\0\0ssh/tcp\0";

/// A user who is there once the files have changed, by name.
pub const EVE: &[u8] = b"\x02\0\0\0\0\0\0\0\x04\0\0\0eve\0";

/// A group that is there then, by name.
pub const STAFF: &[u8] = b"\x02\0\0\0\x02\0\0\0\x06\0\0\0staff\0";

/// A host that is there then, by name.
pub const DB: &[u8] = b"\x02\0\0\0\x04\0\0\0\x03\0\0\0db\0";

/// A service over tcp that is there then, by name.
pub const HTTP: &[u8] = b"\x02\0\0\0\x10\0\0\0\x09\0\0\0http/tcp\0";

/// The counts of the databases.
pub const STATISTICS: &[u8] = b"\x02\0\0\0\x09\0\0\0\0\0\0\0";

/// The end of the daemon.
pub const SHUTDOWN: &[u8] = b"\x02\0\0\0\x08\0\0\0\0\0\0\0";

/// The database of users forgets its replies.
pub const INVALIDATE_PASSWD: &[u8] = b"\x02\0\0\0\x0a\0\0\0\x07\0\0\0passwd\0";

/// A database that there is not.
pub const INVALIDATE_SHADOW: &[u8] = b"\x02\0\0\0\x0a\0\0\0\x07\0\0\0shadow\0";

/// A user by a key of no bytes.
pub const NO_KEY: &[u8] = b"\x02\0\0\0\0\0\0\0\0\0\0\0";

/// A user by a key of 1,025 bytes, which is one more than a key may have.
pub const LONG_KEY: &[u8] = b"\x02\0\0\0\0\0\0\0\x01\x04\0\0";

/// A user by a key of -1 bytes.
pub const NEGATIVE_KEY: &[u8] = b"\x02\0\0\0\0\0\0\0\xff\xff\xff\xff";

/// The user root in version 1 of the protocol.
pub const OLD_VERSION: &[u8] = b"\x01\0\0\0\0\0\0\0\x05\0\0\0root\0";

/// A type that is none, 22.
pub const NO_TYPE: &[u8] = b"\x02\0\0\0\x16\0\0\0\x05\0\0\0root\0";

/// A descriptor of a cache's map, which is handed to nobody.
pub const DESCRIPTOR: &[u8] = b"\x02\0\0\0\x0b\0\0\0\x07\0\0\0passwd\0";

/// A request that ends before its fields do, after 11 bytes.
pub const SHORT: &[u8] = b"\x02\0\0\0\0\0\0\0\x05\0\0";

/// The fields of a request of a user by a key of 1,024 bytes, which is as many as a key may have.
pub const LONGEST_KEY: &[u8] = b"\x02\0\0\0\0\0\0\0\0\x04\0\0";

/// Two requests on one connection, of which the first alone is read.
pub const TWO: &[u8] = b"\x02\0\0\0\0\0\0\0\x05\0\0\0root\0\x02\0\0\0\0\0\0\0\x05\0\0\0root\0";

/// Two orders on one connection, of which the first alone is read.
pub const TWO_ORDERS: &[u8] =
    b"\x02\0\0\0\x0a\0\0\0\x07\0\0\0passwd\0\x02\0\0\0\x0a\0\0\0\x07\0\0\0passwd\0";

/// Lines for the gate, of which the last has no newline.
pub const LINES: &[u8] =
    b"passwd root\nservices 22/tcp\nhosts 127.0.0.1\npasswd nobody1\nshadow root";

/// One more line.
pub const LINE: &[u8] = b"services ssh\n";
