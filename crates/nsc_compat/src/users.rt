// Users of passwd(5) as accounts of the service compat, with the fields of plus lines.
ghost use Rattle.std.specs.Prelude.{◌≡◌, ◌≤◌, All, IfOk, IfSome, length, map, refl};
ghost use Rattle.std.specs.Option.{option_map};
ghost use Rattle.nsc_base.specs.Text.{LiesIn, fields_of, part};
ghost use Rattle.nsc_model.specs.Answers.{user_in};
ghost use Rattle.nsc_model.specs.Compat.{own_or, replaced_user};
ghost use Rattle.nsc_model.specs.Entries.{if_named};
ghost use Rattle.nsc_model.specs.Users.{user_of_line};
ghost use Rattle.nsc_accounts.specs.Passwd.{UserLiesIn, user_at};
ghost use Rattle.nsc_accounts.proofs.Given.{user_gives};
ghost use Rattle.nsc_compat.specs.Accounts.{is_wanted, passwd_accounts};

use crate::account::Account;
use crate::asking::Naming;
use crate::excluded::Excluded;
use nsc_accounts::{PasswdAt, user_named, user_numbered, user_row};
use nsc_base::{Bytes, NoMemory, Span, exact_fields};
use nsc_model::{FileId, Kind, Looked, Passwd, Row};
use std::alloc::Global;

impl Account for Passwd {
    ghost accounts = { passwd_accounts };

    ghost has = { refl };

    ghost asks = { refl };

    ghost gives = { user_gives };

    fn file() -> FileId {
        FileId::Passwd
    }

    fn by_name() -> Kind {
        Kind::PwName
    }

    fn own(
        alloc: Global,
        text: &[u8],
        line: Span,
        wanted: &Naming,
        excluded: &Excluded,
    ) -> Result<Option<Looked>, NoMemory> {
        let Some(at) = wanted_user(text, line, wanted) else {
            return Ok(None);
        };
        if excluded.has(at.name.of(text)) {
            return Ok(None);
        }
        Ok(Some(Looked::Found(Row::Passwd(user_row(alloc, text, &at)?))))
    }

    fn in_outcome(looked: Looked) -> Option<Passwd> {
        match looked {
            Looked::Found(Row::Passwd(user)) => Some(user),
            _ => None,
        }
    }

    fn name(&self) -> &[u8] {
        self.name.as_slice()
    }

    fn id(&self) -> u32 {
        self.uid
    }

    fn replaced(self, alloc: Global, all: &[u8]) -> Result<Passwd, NoMemory> {
        match exact_fields::<7>(all, Span::whole(all), b':') {
            Some(fields) => with_fields(alloc, self, all, fields),
            None => Ok(self),
        }
    }

    fn found(self) -> Looked {
        Looked::Found(Row::Passwd(self))
    }
}

// The entry of a line of a passwd file that has the form and is the wanted one. Most other lines are given up before all
// their fields are read.
fn wanted_user(text: &[u8], line: Span, wanted: &Naming) -> Option<PasswdAt>
    requires { line.to ≤ length text.now }
    ensures entry { option_map (user_at text.now) result ≡ if_named (is_wanted passwd_accounts wanted.now) (user_of_line (part text.now line)) }
    ensures inside { IfSome result (UserLiesIn line) }
{
    match wanted {
        Naming::Name(name) => user_named(text, line, *name),
        Naming::Id(Some(uid)) => user_numbered(text, line, *uid),
        Naming::Id(None) => None,
    }
}

// A user with those of seven fields of a plus line in their place that are not empty.
fn with_fields(
    alloc: Global,
    user: Passwd,
    all: &[u8],
    fields: [Span; 7],
) -> Result<Passwd, NoMemory>
    requires { All (LiesIn (record { from = 0; to = length all.now })) fields }
    ensures { IfOk result (λ replaced. replaced ≡ replaced_user (map (part all.now) fields) user) }
{
    let [_, passwd, _, _, gecos, dir, shell] = fields;
    Ok(Passwd {
        name: user.name,
        passwd: own_or(alloc, all, passwd, user.passwd)?,
        uid: user.uid,
        gid: user.gid,
        gecos: own_or(alloc, all, gecos, user.gecos)?,
        dir: own_or(alloc, all, dir, user.dir)?,
        shell: own_or(alloc, all, shell, user.shell)?,
    })
}

// A line's own field, where it is not empty, and else the other.
fn own_or(alloc: Global, all: &[u8], own: Span, other: Bytes) -> Result<Bytes, NoMemory>
    requires { own.to ≤ length all.now }
    ensures { IfOk result (λ field. field ≡ own_or (part all.now own) other) }
{
    let own = own.of(all);
    if own.is_empty() {
        Ok(other)
    } else {
        Bytes::copy(alloc, own)
    }
}
