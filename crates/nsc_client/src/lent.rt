// Rows of replies that are lent by the bytes that spell them.
ghost use Rattle.std.specs.Prelude.{◌≡◌, ◌≤◌, ◌<◌, ◌^◌, ◌++◌, ℕ, List, drop, length, take};
ghost use Rattle.nsc_model.specs.declared.row.Passwd.{Passwd};
ghost use Rattle.nsc_model.specs.declared.row.Group.{Group};
ghost use Rattle.nsc_model.specs.declared.row.Host.{Host};
ghost use Rattle.nsc_model.specs.declared.row.Service.{Service};
ghost use Rattle.nsc_model.specs.Answer.{reply_limit};
ghost use Rattle.nsc_model.specs.ServiceLines.{exchanged};
ghost use Rattle.nsc_model.specs.Wire.{IsGroup, IsHost, IsService, IsText, IsUser, field, group_found, host_found, passwd_found, service_found, text};
ghost use Rattle.nsc_client.specs.Lent.{LendsGroup, LendsHost, LendsService, user_of};

use crate::line::cut_at;
use nsc_base::u32_at;

// A field, in bytes.
const FIELD: usize = 4;

// The places of a user's ids, and of the texts after the fields.
const USER_UID: usize = 16;

const USER_GID: usize = 20;

const USER_TEXTS: usize = 36;

// The places of a group's id, of the count of its members, and of the lengths of their names.
const GROUP_GID: usize = 16;

const GROUP_COUNT: usize = 20;

const GROUP_LENGTHS: usize = 24;

// The places of the count of a host's aliases, of its family, of the length of its address, and of the texts after the fields.
const HOST_COUNT: usize = 12;

const HOST_FAMILY: usize = 16;

const HOST_SIZE: usize = 20;

const HOST_TEXTS: usize = 32;

// The places of the count of a service's aliases, of its port, and of the texts after the fields.
const SERVICE_COUNT: usize = 16;

const SERVICE_PORT: usize = 20;

const SERVICE_TEXTS: usize = 24;

/// A user's entry, lent.
#[derive(Clone, Copy)]
pub(crate) struct LentUser<'b> {
    pub(crate) name: &'b [u8],
    pub(crate) passwd: &'b [u8],
    pub(crate) uid: u32,
    pub(crate) gid: u32,
    pub(crate) gecos: &'b [u8],
    pub(crate) dir: &'b [u8],
    pub(crate) shell: &'b [u8],
}

/// A group's entry, lent.
#[derive(Clone, Copy)]
pub(crate) struct LentGroup<'b> {
    pub(crate) name: &'b [u8],
    pub(crate) passwd: &'b [u8],
    pub(crate) gid: u32,
    pub(crate) members: LentTexts<'b>,
}

/// A host's entry, lent.
#[derive(Clone, Copy)]
pub(crate) struct LentHost<'b> {
    pub(crate) name: &'b [u8],
    pub(crate) aliases: LentTexts<'b>,
    pub(crate) family: u32,
    pub(crate) address: &'b [u8],
}

/// A service's entry, lent.
#[derive(Clone, Copy)]
pub(crate) struct LentService<'b> {
    pub(crate) name: &'b [u8],
    pub(crate) proto: &'b [u8],
    pub(crate) aliases: LentTexts<'b>,
    pub(crate) port: u32,
}

/// Texts at the front of bytes, lent. Each ends with a zero byte.
#[derive(Clone, Copy)]
pub(crate) struct LentTexts<'b> {
    /// How many texts there are.
    pub(crate) count: u32,
    /// The texts, and what comes after them.
    pub(crate) bytes: &'b [u8],
}

/// Reads the user's entry that these bytes spell.
pub(crate) fn lend_user(bytes: &[u8]) -> LentUser<'_>
    ensures { (user : Passwd) → IsUser user → bytes.now ≡ passwd_found user → user_of result ≡ user }
{
    let (name, rest) = next_text(after(bytes, USER_TEXTS));
    let (passwd, rest) = next_text(rest);
    let (gecos, rest) = next_text(rest);
    let (dir, rest) = next_text(rest);
    let (shell, _) = next_text(rest);
    LentUser {
        name,
        passwd,
        uid: number(bytes, USER_UID),
        gid: number(bytes, USER_GID),
        gecos,
        dir,
        shell,
    }
}

/// Reads the group's entry that these bytes spell.
pub(crate) fn lend_group(bytes: &[u8]) -> LentGroup<'_>
    requires { length bytes.now ≤ reply_limit }
    ensures { (group : Group) → IsGroup group → bytes.now ≡ group_found group → LendsGroup result group }
{
    let count = number(bytes, GROUP_COUNT);
    let (name, rest) = next_text(after(after(bytes, GROUP_LENGTHS), FIELD * count as usize));
    let (passwd, rest) = next_text(rest);
    LentGroup {
        name,
        passwd,
        gid: number(bytes, GROUP_GID),
        members: LentTexts { count, bytes: rest },
    }
}

/// Reads the host's entry that these bytes spell.
pub(crate) fn lend_host(bytes: &[u8]) -> LentHost<'_>
    requires { length bytes.now ≤ reply_limit }
    ensures { (host : Host) → IsHost host → bytes.now ≡ host_found host → LendsHost result host }
{
    let count = number(bytes, HOST_COUNT);
    let size = number(bytes, HOST_SIZE) as usize;
    let (name, rest) = next_text(after(bytes, HOST_TEXTS));
    let rest = after(rest, FIELD * count as usize);
    LentHost {
        name,
        aliases: LentTexts {
            count,
            bytes: after(rest, size),
        },
        family: number(bytes, HOST_FAMILY),
        address: front(rest, size),
    }
}

/// Reads the service's entry that these bytes spell.
pub(crate) fn lend_service(bytes: &[u8]) -> LentService<'_>
    requires { length bytes.now ≤ reply_limit }
    ensures { (service : Service) → IsService service → bytes.now ≡ service_found service → LendsService result service }
{
    let count = number(bytes, SERVICE_COUNT);
    let (name, rest) = next_text(after(bytes, SERVICE_TEXTS));
    let (proto, rest) = next_text(rest);
    LentService {
        name,
        proto,
        aliases: LentTexts {
            count,
            bytes: after(rest, FIELD * count as usize),
        },
        port: port(number(bytes, SERVICE_PORT)),
    }
}

/// Splits bytes at the zero byte that ends the text at their front.
pub(crate) fn next_text(bytes: &[u8]) -> (&[u8], &[u8])
    ensures { (one : List ℕ) → (rest : List ℕ) → IsText one → bytes.now ≡ text one ++ rest → (result.0.now ≡ one) × (result.1.now ≡ rest) }
{
    match cut_at(bytes, 0) {
        Some(halves) => halves,
        None => (bytes, bytes),
    }
}

// The bytes from a place on.
fn after(bytes: &[u8], at: usize) -> &[u8]
    ensures { result.now ≡ drop at bytes.now }
{
    &bytes[at.min(bytes.len())..]
}

// The bytes before a place.
fn front(bytes: &[u8], at: usize) -> &[u8]
    ensures { result.now ≡ take at bytes.now }
{
    &bytes[..at.min(bytes.len())]
}

// The number in the field at a place. 0 if the bytes end before it.
fn number(bytes: &[u8], at: usize) -> u32
    requires { at < 2 ^ 32 }
    ensures { (n : ℕ) → (rest : List ℕ) → n < 2 ^ 32 → drop at bytes.now ≡ field n ++ rest → result ≡ n }
{
    if bytes.len() < at + FIELD {
        return 0;
    }
    u32_at(bytes, at)
}

// The port of a field, whose two bytes are exchanged.
fn port(field: u32) -> u32
    ensures { (n : ℕ) → n < 2 ^ 16 → field ≡ exchanged n → result ≡ n }
{
    if field > u32::from(u16::MAX) {
        return 0;
    }
    u32::from((field as u16).swap_bytes())
}
