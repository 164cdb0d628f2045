// Compat requests for one entry: a scan up to the first line that answers.
ghost use Rattle.std.specs.Prelude.{◌≡◌, ◌≤◌, ◌∷◌, ℕ, List, [], IfOk, length, true};
ghost use Rattle.nsc_base.specs.Text.{fields_of, part};
ghost use Rattle.nsc_model.specs.Compat.{scanned, scanned_file};
ghost use Rattle.nsc_model.specs.Files.{file_of};
ghost use Rattle.nsc_model.specs.Kinds.{database_of};
ghost use Rattle.nsc_model.specs.Switches.{text_of};
ghost use Rattle.nsc_compat.specs.Accounts.{IsAskedBy, is_wanted, outcome_by, scan_of, wanted_names};
ghost use Rattle.nsc_accounts.specs.Matters.{AreLines, matters};

use crate::account::Account;
use crate::asking::{Asking, Naming, names_entry};
use crate::excluded::Excluded;
use crate::lines::{LineScan, scan_lines};
use crate::said::{LineSays, line_says};
use crate::sub::SubLookup;
use nsc_base::{NoMemory, Span};
use nsc_model::Looked;
use std::alloc::Global;
use std::marker::PhantomData;

/// The outcome of compat for a request for one entry: the lines of the database's file in turn, with the names that are
/// excluded so far, up to the first one that answers, of those that matter to the request. Unavailable where the file is absent.
/// Fails only for want of memory.
pub fn entry<E: Account, S: SubLookup>(
    alloc: Global,
    asking: Asking,
    sub: &S,
    lines: &[Span],
) -> Result<Looked, NoMemory>
    requires database { database_of asking.kind ≡ E.accounts.database }
    requires name { IsAskedBy E.accounts asking.kind asking.key.now asking.wanted }
    requires lines { AreLines (text_of (file_of (S.content sub.now) E.accounts.file)) (matters E.accounts.entry_of (is_wanted E.accounts asking.wanted) (wanted_names asking.wanted)) lines.now }
    ensures { IfOk result (λ looked. looked ≡ scanned_file (scan_of E.accounts (S.content sub.now) asking.entry) (file_of (S.content sub.now) E.accounts.file)) }
{
    let Some(text) = sub.content().file(E::file()) else {
        return Ok(Looked::Unavail);
    };
    let scan: EntryScan<E, S> = EntryScan {
        sub,
        asking,
        of: PhantomData,
    };
    scan_lines(alloc, &scan, Excluded::new(alloc), text, lines)
}

// A scan for one entry: who is asked, and what is asked. It has seen the names that are excluded so far.
#[derive(Drop)]
struct EntryScan<'s, 'k, E: Account, S: SubLookup> {
    sub: &'s S,
    asking: Asking<'k>,
    of: PhantomData<E>,
    ghost own_database: { database_of asking.kind ≡ E.accounts.database },
}

impl<'s, 'k, 't, E: Account, S: SubLookup> LineScan<'t> for EntryScan<'s, 'k, E, S> {
    type Seen = Excluded<'t>;

    ghost comes = { λ s excluded later. scanned (scan_of E.accounts (S.content s.sub.now) s.asking) later excluded };

    fn take(
        &self,
        alloc: Global,
        text: &'t [u8],
        line: Span,
        excluded: &mut Excluded<'t>,
    ) -> Result<Option<Looked>, NoMemory> {
        match line_says(text, line) {
            LineSays::Own => E::own(alloc, text, line, &self.asking.wanted, excluded),
            LineSays::Excludes(name) => {
                excluded.add(name)?;
                Ok(None)
            }
            LineSays::Asks { name, all } => {
                let found = self.sub.look(alloc, E::by_name(), name)?;
                let found = E::in_outcome(found);
                named(alloc, &self.asking.wanted, found, all, excluded)
            }
            LineSays::AsksAll { all } => {
                let found = self.sub.look(alloc, self.asking.kind, self.asking.key)?;
                asked(alloc, E::in_outcome(found), all, excluded)
            }
            LineSays::Netgroup => Ok(Some(Looked::Unavail)),
            LineSays::Nothing => Ok(None),
        }
    }

    fn end(&self, _excluded: Excluded<'t>) -> Looked {
        Looked::NotFound
    }
}

// The outcome of what further services found for the name of a plus line: as in the line itself, it answers where the
// request names it.
fn named<E: Account>(
    alloc: Global,
    wanted: &Naming,
    found: Option<E>,
    all: &[u8],
    excluded: &Excluded,
) -> Result<Option<Looked>, NoMemory>
    ensures { IfOk result (λ outcome. outcome ≡ outcome_by E.accounts (is_wanted E.accounts wanted.now) excluded.now found (E.accounts.replaced (fields_of 58 all.now))) }
{
    let Some(entry) = found else {
        return Ok(None);
    };
    if !names_entry(wanted, entry.name(), entry.id()) {
        return Ok(None);
    }
    asked(alloc, Some(entry), all, excluded)
}

// The outcome of what further services found for the request itself: it answers where its name is not excluded.
fn asked<E: Account>(
    alloc: Global,
    found: Option<E>,
    all: &[u8],
    excluded: &Excluded,
) -> Result<Option<Looked>, NoMemory>
    ensures { IfOk result (λ outcome. outcome ≡ outcome_by E.accounts (λ a. true) excluded.now found (E.accounts.replaced (fields_of 58 all.now))) }
{
    let Some(entry) = found else {
        return Ok(None);
    };
    if excluded.has(entry.name()) {
        return Ok(None);
    }
    Ok(Some(entry.replaced(alloc, all)?.found()))
}
