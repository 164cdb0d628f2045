// `Account`: the trait of entries of passwd or group that compat lines give.
ghost use Rattle.std.specs.Prelude.{◌≡◌, ◌≤◌, ℕ, List, true, IfOk, IfSome, length};
ghost use Rattle.nsc_base.specs.Text.{fields_of, part};
ghost use Rattle.nsc_model.specs.Answers.{sub_looked};
ghost use Rattle.nsc_model.specs.Compat.{has_compat};
ghost use Rattle.nsc_model.specs.Content.{Content as Files};
ghost use Rattle.nsc_model.specs.Kinds.{database_of};
ghost use Rattle.nsc_compat.specs.Accounts.{Accounts, is_wanted, outcome_by};

use crate::asking::Naming;
use crate::excluded::Excluded;
use nsc_base::{NoMemory, Span};
use nsc_model::{FileId, Kind, Looked};
use std::alloc::Global;

/// An entry of passwd or of group, as compat lines give it.
pub trait Account: Sized + Drop {
    /// What a scan of lines knows of these entries.
    ghost accounts: { Accounts Self };

    /// The file of the database.
    fn file() -> FileId
        ensures { result ≡ accounts.file };

    /// The kind that asks for an entry by its name.
    fn by_name() -> Kind
        ensures { result ≡ accounts.by_name };

    /// The outcome of a line's own entry, where the line has the form of one, the request names it and its name is not
    /// excluded. Fails only for want of memory.
    fn own(
        alloc: Global,
        text: &[u8],
        line: Span,
        wanted: &Naming,
        excluded: &Excluded,
    ) -> Result<Option<Looked>, NoMemory>
        requires { line.to ≤ length text.now }
        ensures { IfOk result (λ outcome. outcome ≡ outcome_by accounts (is_wanted accounts wanted.now) excluded.now (accounts.entry_of (part text.now line)) (λ a. a)) };

    /// The entry of an outcome, where it has one.
    fn in_outcome(looked: Looked) -> Option<Self>
        ensures { result ≡ accounts.entry_in looked };

    /// The entry's name.
    fn name(&self) -> &[u8]
        ensures { result.now ≡ accounts.name_of self.now };

    /// The entry's id.
    fn id(&self) -> u32
        ensures { result ≡ accounts.id_of self.now };

    /// The entry with what the fields of a plus line replace of it. Fails only for want of memory.
    fn replaced(self, alloc: Global, all: &[u8]) -> Result<Self, NoMemory>
        ensures { IfOk result (λ replaced. replaced ≡ accounts.replaced (fields_of 58 all.now) self) };

    /// The entry as an outcome.
    fn found(self) -> Looked
        ensures { result ≡ accounts.found self };

    /// The database has compat.
    ghost has: { has_compat accounts.database ≡ true };

    /// Its entries are asked for by their names in it.
    ghost asks: { database_of accounts.by_name ≡ accounts.database };

    /// The entry that further services have for a name has that name.
    ghost gives: { (files : Files) (name : List ℕ) → IfSome (accounts.entry_in (sub_looked files accounts.database accounts.by_name name)) (λ a. accounts.name_of a ≡ name) };
}
