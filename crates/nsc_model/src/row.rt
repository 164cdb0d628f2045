// Rows of users, groups, hosts and services; outcomes of lookups; what replies say.
ghost use Rattle.std.specs.Prelude.{◌≡◌, ◌==◌, length};

use nsc_base::{Bytes, Ids, Texts};
use std::marker::Model;

/// A user's entry, passwd(5).
#[derive(Debug, Drop)]
pub struct Passwd {
    /// The login name.
    pub name: Bytes,
    /// The password field.
    pub passwd: Bytes,
    /// The user's id.
    pub uid: u32,
    /// The id of the user's primary group.
    pub gid: u32,
    /// The user's full name and the like.
    pub gecos: Bytes,
    /// The home directory.
    pub dir: Bytes,
    /// The login shell.
    pub shell: Bytes,
}

/// A group's entry, group(5).
#[derive(Debug, Drop)]
pub struct Group {
    /// The group's name.
    pub name: Bytes,
    /// The password field.
    pub passwd: Bytes,
    /// The group's id.
    pub gid: u32,
    /// The names of its members, in the order of the line.
    pub members: Texts,
}

/// A host's entry with one address, hosts(5).
#[derive(Debug, Drop)]
pub struct Host {
    /// The canonical name.
    pub name: Bytes,
    /// Further names.
    pub aliases: Texts,
    /// The address family: 2 for IPv4, 10 for IPv6.
    pub family: u32,
    /// The address, 4 or 16 bytes.
    pub address: Bytes,
}

/// A service's entry, services(5).
#[derive(Debug, Drop)]
pub struct Service {
    /// The official name.
    pub name: Bytes,
    /// The protocol.
    pub proto: Bytes,
    /// Further names.
    pub aliases: Texts,
    /// The port, as a number.
    pub port: u16,
}

/// One address of a host, of either family.
#[derive(Debug, Drop)]
pub struct Found6 {
    /// The address family: 2 for IPv4, 10 for IPv6.
    pub family: u8,
    /// The address, 4 or 16 bytes.
    pub address: Bytes,
}

/// Addresses, seen in contracts as a list.
#[derive(Debug, Drop)]
pub struct Founds {
    items: Vec<Found6>,
}

impl Model for Founds {
    ghost use Rattle.std.specs.Prelude.{List};
    ghost use Rattle.nsc_model.specs.declared.row.Found6.{Found6};

    ghost Value = { List Found6 };

    ghost view = { λ f. f.items.items };
}

impl Founds {
    /// The addresses of a `Vec`, with no copy and no new memory.
    pub fn from_vec(items: Vec<Found6>) -> Founds
        ensures { result ≡ items.items }
    {
        Founds { items }
    }

    /// The addresses, lent.
    pub fn as_slice(&self) -> &[Found6]
        ensures { result.now ≡ self.now }
    {
        self.items.as_slice()
    }

    /// How many addresses there are.
    pub fn len(&self) -> usize
        ensures { result ≡ length self.now }
    {
        self.items.len()
    }

    /// Whether there is no address.
    pub fn is_empty(&self) -> bool
        ensures { result ≡ (length self.now == 0) }
    {
        self.items.is_empty()
    }
}

/// The addresses of a host and its canonical name.
#[derive(Debug, Drop)]
pub struct Ai {
    /// The addresses, in the order of the file.
    pub list: Founds,
    /// The canonical name.
    pub canon: Bytes,
}

/// What a lookup that succeeds has found.
#[derive(Debug, Drop)]
pub enum Row {
    /// A user.
    Passwd(Passwd),
    /// A group.
    Group(Group),
    /// A host.
    Host(Host),
    /// A service.
    Service(Service),
    /// A host's addresses.
    Ai(Ai),
    /// The ids of a user's groups.
    Groups(Ids),
    /// The triples of a netgroup: host, user and domain of each in turn.
    Netgroup(Texts),
    /// Whether a netgroup has a triple.
    Member(bool),
}

/// The outcome of one service or of the whole switch, nsswitch.conf(5). TRYAGAIN never arises from contents.
#[derive(Debug, Drop)]
pub enum Looked {
    /// SUCCESS, with what was found.
    Found(Row),
    /// NOTFOUND.
    NotFound,
    /// UNAVAIL.
    Unavail,
}

/// What a reply says.
#[derive(Debug, Drop)]
pub enum Reply {
    /// The entry.
    Found(Row),
    /// There is none.
    Absent,
    /// The database is not cached. The daemon never sends this; clients read it.
    Disabled,
}
