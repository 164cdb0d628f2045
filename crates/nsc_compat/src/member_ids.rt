// Compat requests for the groups of a user: a scan that gathers group ids.
ghost use Rattle.std.specs.Prelude.{◌≡◌, ◌≤◌, ◌∷◌, ℕ, List, [], IfOk, OnOk, length, map, true};
ghost use Rattle.std.specs.Option.{option_map};
ghost use Rattle.nsc_base.specs.Text.{part};
ghost use Rattle.nsc_model.specs.Answers.{found_ids, gathered_file, group_in as group_found, id_scan};
ghost use Rattle.nsc_model.specs.Compat.{gathered, ids_of_pairs};
ghost use Rattle.nsc_model.specs.Groups.{group_of_line, has_member as is_member};
ghost use Rattle.nsc_accounts.specs.Once.{all_ids};
ghost use Rattle.nsc_compat.specs.Gathered.{member_id, unless_excluded};
ghost use Rattle.nsc_model.specs.Switches.{text_of};
ghost use Rattle.nsc_compat.specs.Lines.{ids_or_unavail};
ghost use Rattle.nsc_accounts.specs.Matters.{AreLines, matters};
ghost use Rattle.nsc_accounts.specs.NamedId.{pair_of};

use crate::account::Account;
use crate::excluded::Excluded;
use crate::lines::{LineScan, scan_lines};
use crate::said::{LineSays, line_says};
use crate::sub::SubLookup;
use nsc_accounts::{NamedId, OnceIds, group_line, has_member};
use nsc_base::{Ids, NoMemory, Span};
use nsc_model::{FileId, Group, Kind, Looked, Row};
use std::alloc::Global;

/// The outcome of compat for the groups of a user: their ids in the order of the lines, each once, and not found where there
/// is none; by the lines that matter to the request. Unavailable where the group file is absent, or a netgroup is reached. Fails
/// only for want of memory.
pub fn ids_of_user<S: SubLookup>(
    alloc: Global,
    user: &[u8],
    sub: &S,
    lines: &[Span],
) -> Result<Looked, NoMemory>
    requires { AreLines (text_of (S.content sub.now).group) (matters group_of_line (is_member user.now) (λ name. true)) lines.now }
    ensures { IfOk result (λ looked. looked ≡ gathered_file (id_scan (S.content sub.now) user.now) (S.content sub.now).group) }
{
    let Some(text) = sub.content().file(FileId::Group) else {
        return Ok(Looked::Unavail);
    };
    let seen = MembersSeen {
        excluded: Excluded::new(alloc),
        ids: OnceIds::new(alloc),
    };
    let scan = MemberScan { sub, user };
    scan_lines(alloc, &scan, seen, text, lines)
}

// A scan for the groups of a user: who is asked, and the user's name.
#[derive(Drop)]
struct MemberScan<'s, 'u, S: SubLookup> {
    sub: &'s S,
    user: &'u [u8],
}

// The names that are excluded and the ids so far.
#[derive(Drop)]
struct MembersSeen<'t> {
    excluded: Excluded<'t>,
    ids: OnceIds,
}

impl<'s, 'u, 't, S: SubLookup> LineScan<'t> for MemberScan<'s, 'u, S> {
    type Seen = MembersSeen<'t>;

    ghost comes = { λ s seen later. ids_or_unavail (option_map (all_ids seen.ids) (gathered (id_scan (S.content s.sub.now) s.user.now) later seen.excluded)) };

    fn take(
        &self,
        alloc: Global,
        text: &'t [u8],
        line: Span,
        seen: &mut MembersSeen<'t>,
    ) -> Result<Option<Looked>, NoMemory> {
        match line_says(text, line) {
            LineSays::Own => {
                add_own(text, line, self.user, &seen.excluded, &mut seen.ids)?;
                Ok(None)
            }
            LineSays::Excludes(name) => {
                seen.excluded.add(name)?;
                Ok(None)
            }
            LineSays::Asks { name, .. } => {
                let found = self.sub.look(alloc, Kind::GrName, name)?;
                add_found(found, self.user, &seen.excluded, &mut seen.ids)?;
                Ok(None)
            }
            LineSays::AsksAll { .. } => {
                let groups = self.sub.named_groups(alloc, self.user)?;
                add_all(&groups, &seen.excluded, &mut seen.ids)?;
                Ok(None)
            }
            LineSays::Netgroup => Ok(Some(Looked::Unavail)),
            LineSays::Nothing => Ok(None),
        }
    }

    fn end(&self, seen: MembersSeen<'t>) -> Looked {
        outcome_of(seen.ids.into_ids())
    }
}

// Adds the id of the entry of a line that has the user as a member, where its name is not excluded.
fn add_own(
    text: &[u8],
    line: Span,
    user: &[u8],
    excluded: &Excluded,
    ids: &mut OnceIds,
) -> Result<(), NoMemory>
    requires { line.to ≤ length text.now }
    ensures { OnOk result (ids.new ≡ all_ids ids.old (member_id user.now excluded.now (group_of_line (part text.now line)))) }
{
    let Some(at) = group_line(text, line) else {
        return Ok(());
    };
    if !has_member(text, at.members, user) {
        return Ok(());
    }
    add_id(at.name.of(text), at.gid, excluded, ids)
}

// Adds the id of a group that further services found, where it has the user as a member and its name is not excluded.
fn add_found(
    found: Looked,
    user: &[u8],
    excluded: &Excluded,
    ids: &mut OnceIds,
) -> Result<(), NoMemory>
    ensures { OnOk result (ids.new ≡ all_ids ids.old (member_id user.now excluded.now (group_found found))) }
{
    let Some(group) = Group::in_outcome(found) else {
        return Ok(());
    };
    if !is_member(&group, user) {
        return Ok(());
    }
    add_id(group.name.as_slice(), group.gid, excluded, ids)
}

// Adds the ids of the groups whose names are not excluded.
fn add_all(groups: &[NamedId], excluded: &Excluded, ids: &mut OnceIds) -> Result<(), NoMemory>
    ensures { OnOk result (ids.new ≡ all_ids ids.old (ids_of_pairs excluded.now (map pair_of groups.now))) }
{
    for group in groups {
        add_id(group.name.as_slice(), group.gid, excluded, ids)?;
    }
    Ok(())
}

// Adds the id of a group whose name is not excluded.
fn add_id(name: &[u8], gid: u32, excluded: &Excluded, ids: &mut OnceIds) -> Result<(), NoMemory>
    ensures { OnOk result (ids.new ≡ all_ids ids.old (unless_excluded excluded.now name.now gid)) }
{
    if !excluded.has(name) {
        ids.add(gid)?;
    }
    Ok(())
}

// Whether a group has the user as a member.
fn is_member(group: &Group, user: &[u8]) -> bool
    ensures { result ≡ is_member user.now group.now }
{
    group.members.contains(user)
}

// No id is not found.
fn outcome_of(ids: Ids) -> Looked
    ensures { result ≡ found_ids ids }
{
    if ids.is_empty() {
        Looked::NotFound
    } else {
        Looked::Found(Row::Groups(ids))
    }
}
