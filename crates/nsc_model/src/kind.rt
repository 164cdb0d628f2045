// Databases, kinds of requests, layouts of replies and source files, with their numbers.
ghost use Rattle.std.specs.Prelude.{◌≡◌};
ghost use Rattle.nsc_model.specs.Files.{is_read};
ghost use Rattle.nsc_model.specs.Kinds.{database_of, db_named, db_numbered, name_of, file_numbered, file_number, is_netgroup, kind_numbered, type_number};
ghost use Rattle.nsc_model.specs.Wire.{shape_of};

/// A database of the name service: each has its own files, cache and settings.
#[derive(Clone, Copy, Debug, PartialEq, Eq)]
pub enum Db {
    /// Users, passwd(5).
    Passwd,
    /// Groups, group(5).
    Group,
    /// Hosts, hosts(5).
    Hosts,
    /// Services, services(5).
    Services,
}

/// What a lookup asks, by the request types of protocol version 2 in glibc's nscd-client.h. Each kind has the
/// number of its request type.
#[derive(Clone, Copy, Debug, PartialEq, Eq)]
pub enum Kind {
    /// GETPWBYNAME: a user by name.
    PwName = 0,
    /// GETPWBYUID: a user by id.
    PwUid = 1,
    /// GETGRBYNAME: a group by name.
    GrName = 2,
    /// GETGRBYGID: a group by id.
    GrGid = 3,
    /// GETHOSTBYNAME: a host's IPv4 address by name.
    HostName = 4,
    /// GETHOSTBYNAMEv6: a host's IPv6 address by name.
    HostName6 = 5,
    /// GETHOSTBYADDR: a host by address.
    HostAddr = 6,
    /// GETHOSTBYADDRv6: a host by address.
    HostAddr6 = 7,
    /// GETAI: a host's addresses of both families by name.
    Ai = 14,
    /// INITGROUPS: the groups of a user.
    InitGroups = 15,
    /// GETSERVBYNAME: a service by name and protocol.
    ServName = 16,
    /// GETSERVBYPORT: a service by port and protocol.
    ServPort = 17,
    /// GETNETGRENT: the triples of a netgroup.
    NetgrEnt = 19,
    /// INNETGR: whether a netgroup has a triple of these parts.
    InNetgr = 20,
}

/// The layouts of replies, protocol version 2.
#[derive(Clone, Copy, Debug, PartialEq, Eq)]
pub enum Shape {
    /// A user.
    User,
    /// A group.
    Group,
    /// The ids of a user's groups.
    Ids,
    /// A host with one address.
    Host,
    /// The addresses of a host.
    Addresses,
    /// A service.
    Service,
    /// The triples of a netgroup.
    Netgroup,
    /// Whether a netgroup has a triple.
    Member,
}

/// A source file of the name service, with its number in replay frames.
#[derive(Clone, Copy, Debug, PartialEq, Eq)]
pub enum FileId {
    /// nsswitch.conf(5), usually /etc/nsswitch.conf.
    Switch = 0,
    /// passwd(5), usually /etc/passwd.
    Passwd = 1,
    /// group(5), usually /etc/group.
    Group = 2,
    /// hosts(5), usually /etc/hosts.
    Hosts = 3,
    /// services(5), usually /etc/services.
    Services = 4,
    /// The users of the service `extrausers`, usually /var/lib/extrausers/passwd.
    ExtraPasswd = 5,
    /// The groups of the service `extrausers`, usually /var/lib/extrausers/group.
    ExtraGroup = 6,
    /// netgroup(5), usually /etc/netgroup. No database reads it yet.
    Netgroup = 7,
}

impl Db {
    /// The database of this number in replay frames: passwd, group, hosts and services are 0 to 3; `None` above 3.
    pub fn numbered(number: u8) -> Option<Db>
        ensures { result ≡ db_numbered number }
    {
        match number {
            0 => Some(Db::Passwd),
            1 => Some(Db::Group),
            2 => Some(Db::Hosts),
            3 => Some(Db::Services),
            _ => None,
        }
    }

    /// Its name, as nscd.conf(5) has it.
    pub fn name(self) -> &'static [u8]
        ensures { result.now ≡ name_of self }
    {
        match self {
            Db::Passwd => b"passwd",
            Db::Group => b"group",
            Db::Hosts => b"hosts",
            Db::Services => b"services",
        }
    }

    /// The database of this name; `None` where there is none.
    pub fn named(name: &[u8]) -> Option<Db>
        ensures { result ≡ db_named name.now }
    {
        if name == Db::Passwd.name() {
            return Some(Db::Passwd);
        }
        if name == Db::Group.name() {
            return Some(Db::Group);
        }
        if name == Db::Hosts.name() {
            return Some(Db::Hosts);
        }
        if name == Db::Services.name() {
            return Some(Db::Services);
        }
        None
    }

    /// The database that answers lookups of this kind.
    pub fn of(kind: Kind) -> Db
        ensures { result ≡ database_of kind }
    {
        match kind {
            Kind::PwName | Kind::PwUid | Kind::NetgrEnt | Kind::InNetgr => Db::Passwd,
            Kind::GrName | Kind::GrGid | Kind::InitGroups => Db::Group,
            Kind::HostName | Kind::HostName6 | Kind::HostAddr | Kind::HostAddr6 | Kind::Ai =>
                Db::Hosts,
            Kind::ServName | Kind::ServPort => Db::Services,
        }
    }
}

impl Kind {
    /// The kind of a request type's number; `None` where the type is no lookup.
    pub fn numbered(number: u32) -> Option<Kind>
        ensures { result ≡ kind_numbered number }
    {
        match number {
            0 => Some(Kind::PwName),
            1 => Some(Kind::PwUid),
            2 => Some(Kind::GrName),
            3 => Some(Kind::GrGid),
            4 => Some(Kind::HostName),
            5 => Some(Kind::HostName6),
            6 => Some(Kind::HostAddr),
            7 => Some(Kind::HostAddr6),
            14 => Some(Kind::Ai),
            15 => Some(Kind::InitGroups),
            16 => Some(Kind::ServName),
            17 => Some(Kind::ServPort),
            19 => Some(Kind::NetgrEnt),
            20 => Some(Kind::InNetgr),
            _ => None,
        }
    }

    /// The layout of the replies to this kind.
    pub fn shape(self) -> Shape
        ensures { result ≡ shape_of self }
    {
        match self {
            Kind::PwName | Kind::PwUid => Shape::User,
            Kind::GrName | Kind::GrGid => Shape::Group,
            Kind::InitGroups => Shape::Ids,
            Kind::HostName | Kind::HostName6 | Kind::HostAddr | Kind::HostAddr6 => Shape::Host,
            Kind::Ai => Shape::Addresses,
            Kind::ServName | Kind::ServPort => Shape::Service,
            Kind::NetgrEnt => Shape::Netgroup,
            Kind::InNetgr => Shape::Member,
        }
    }

    /// Whether the kind asks for a netgroup.
    pub fn is_netgroup(self) -> bool
        ensures { result ≡ is_netgroup self }
    {
        matches!(self, Kind::NetgrEnt | Kind::InNetgr)
    }

    /// The number of the kind's request type.
    pub fn number(self) -> u32
        ensures { result ≡ type_number self }
    {
        self as u32
    }
}

impl FileId {
    /// Every file, in the order of their numbers.
    pub const ALL: [FileId; 8] = [
        FileId::Switch,
        FileId::Passwd,
        FileId::Group,
        FileId::Hosts,
        FileId::Services,
        FileId::ExtraPasswd,
        FileId::ExtraGroup,
        FileId::Netgroup,
    ];

    /// Whether a database reads the file.
    pub fn is_read_by(self, db: Db) -> bool
        ensures { result ≡ is_read db self }
    {
        match self {
            FileId::Switch => true,
            FileId::Passwd | FileId::ExtraPasswd => db == Db::Passwd,
            FileId::Group | FileId::ExtraGroup => db == Db::Group,
            FileId::Hosts => db == Db::Hosts,
            FileId::Services => db == Db::Services,
            FileId::Netgroup => false,
        }
    }

    /// The file of this number; `None` above 7.
    pub fn numbered(number: u8) -> Option<FileId>
        ensures { result ≡ file_numbered number }
    {
        match number {
            0 => Some(FileId::Switch),
            1 => Some(FileId::Passwd),
            2 => Some(FileId::Group),
            3 => Some(FileId::Hosts),
            4 => Some(FileId::Services),
            5 => Some(FileId::ExtraPasswd),
            6 => Some(FileId::ExtraGroup),
            7 => Some(FileId::Netgroup),
            _ => None,
        }
    }

    /// The file's number.
    pub fn number(self) -> u8
        ensures { result ≡ file_number self }
    {
        self as u8
    }
}
