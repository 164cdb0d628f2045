// Groups of group(5) as accounts of the service compat.
ghost use Rattle.std.specs.Prelude.{◌≡◌, ◌≤◌, IfSome, length, refl};
ghost use Rattle.std.specs.Option.{option_map};
ghost use Rattle.nsc_base.specs.Text.{part};
ghost use Rattle.nsc_model.specs.Entries.{if_named};
ghost use Rattle.nsc_model.specs.Groups.{group_of_line};
ghost use Rattle.nsc_accounts.specs.Group.{GroupLiesIn, group_at};
ghost use Rattle.nsc_accounts.proofs.Given.{group_gives};
ghost use Rattle.nsc_compat.specs.Accounts.{group_accounts, is_wanted};

use crate::account::Account;
use crate::asking::Naming;
use crate::excluded::Excluded;
use nsc_accounts::{GroupAt, group_named, group_numbered, group_row};
use nsc_base::{NoMemory, Span};
use nsc_model::{FileId, Group, Kind, Looked, Row};
use std::alloc::Global;

impl Account for Group {
    ghost accounts = { group_accounts };

    ghost has = { refl };

    ghost asks = { refl };

    ghost gives = { group_gives };

    fn file() -> FileId {
        FileId::Group
    }

    fn by_name() -> Kind {
        Kind::GrName
    }

    fn own(
        alloc: Global,
        text: &[u8],
        line: Span,
        wanted: &Naming,
        excluded: &Excluded,
    ) -> Result<Option<Looked>, NoMemory> {
        let Some(at) = wanted_group(text, line, wanted) else {
            return Ok(None);
        };
        if excluded.has(at.name.of(text)) {
            return Ok(None);
        }
        Ok(Some(Looked::Found(Row::Group(group_row(alloc, text, &at)?))))
    }

    fn in_outcome(looked: Looked) -> Option<Group> {
        match looked {
            Looked::Found(Row::Group(group)) => Some(group),
            _ => None,
        }
    }

    fn name(&self) -> &[u8] {
        self.name.as_slice()
    }

    fn id(&self) -> u32 {
        self.gid
    }

    // Nothing of a group is replaced.
    fn replaced(self, _alloc: Global, _all: &[u8]) -> Result<Group, NoMemory> {
        Ok(self)
    }

    fn found(self) -> Looked {
        Looked::Found(Row::Group(self))
    }
}

// The entry of a line of a group file that has the form and is the wanted one. Most other lines are given up before all
// their fields are read.
fn wanted_group(text: &[u8], line: Span, wanted: &Naming) -> Option<GroupAt>
    requires { line.to ≤ length text.now }
    ensures entry { option_map (group_at text.now) result ≡ if_named (is_wanted group_accounts wanted.now) (group_of_line (part text.now line)) }
    ensures inside { IfSome result (GroupLiesIn line) }
{
    match wanted {
        Naming::Name(name) => group_named(text, line, *name),
        Naming::Id(Some(gid)) => group_numbered(text, line, *gid),
        Naming::Id(None) => None,
    }
}
