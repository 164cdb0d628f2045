// `Sought`: what the lines of a passwd or group file are searched for.
use nsc_model::FileId;

/// What lines of a passwd or group file are looked through for, passwd(5) and group(5).
#[derive(Clone, Copy, Debug)]
pub enum Sought<'k> {
    /// The user of this name.
    User(&'k [u8]),
    /// The user of this id. No id is no user's.
    UserId(Option<u32>),
    /// The group of this name.
    Group(&'k [u8]),
    /// The group of this id. No id is no group's.
    GroupId(Option<u32>),
    /// The groups that have this user as a member.
    Member(&'k [u8]),
}

impl<'k> Sought<'k> {
    ghost use Rattle.std.specs.Prelude.{◌≡◌};
    ghost use Rattle.nsc_accounts.specs.Matters.{sought_file};

    /// The file whose lines are meant.
    pub fn file(self) -> FileId
        ensures { result ≡ sought_file self.entry }
    {
        match self {
            Sought::User(_) | Sought::UserId(_) => FileId::Passwd,
            Sought::Group(_) | Sought::GroupId(_) | Sought::Member(_) => FileId::Group,
        }
    }
}
