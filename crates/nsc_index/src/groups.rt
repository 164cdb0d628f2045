// `GroupIndex`: the index of a group file by name, group id, member and sign.
ghost use Rattle.std.specs.Prelude.{◌≡◌, ◌==◌, ◌≤◌, ◌<◌, ◌^◌, ◌++◌, IfOk, IfSome, OnOk, Some, length, map, true};
ghost use Rattle.std.specs.Option.{is_some, option_map};
ghost use Rattle.std.specs.Str.{bytes_eq};
ghost use Rattle.nsc_model.specs.Answers.{group_named, ids_of, is_id, pairs_of};
ghost use Rattle.nsc_model.specs.Entries.{first_named, if_named};
ghost use Rattle.nsc_model.specs.Files.{file_limit};
ghost use Rattle.nsc_model.specs.Groups.{group_of_line, has_member};
ghost use Rattle.nsc_base.specs.Text.{part};
ghost use Rattle.nsc_accounts.specs.NamedId.{pair_of};
ghost use Rattle.nsc_accounts.specs.Group.{GroupLiesIn, group_at, group_places};
ghost use Rattle.nsc_accounts.specs.Matters.{AreLines, matters};
ghost use Rattle.nsc_index.specs.Groups.{members_at};
ghost use Rattle.nsc_index.specs.Indexes.{on_line};
ghost use Rattle.nsc_index.specs.Signs.{Adds};

use crate::lines::line_on;
use crate::names::{NameAt, places_of_name, sorted_names};
use crate::numbers::{NumberAt, places_of_number, sorted_numbers};
use crate::places::{add_named, add_numbered, lines_at};
use crate::signs::{add_sign, add_signs_on, sorted_signs};
use nsc_accounts::{GroupAt, NamedId, OnceIds, group_line};
use nsc_base::{Bytes, Case, Ids, NoMemory, Span, field_at, line_at};
use std::alloc::Global;

/// The lines of a group file, group(5), in the order of their names, in that of their group ids, and in that of the names of
/// their members: twenty bytes for a line, and twelve for each member. Beside them the names on which lines speak by a sign, as
/// the service compat reads them: twelve bytes for such a line.
#[derive(Debug, Drop)]
pub struct GroupIndex {
    /// The names.
    pub names: Vec<NameAt>,
    /// The group ids.
    pub ids: Vec<NumberAt>,
    /// The names of the members.
    pub members: Vec<NameAt>,
    /// The names after signs.
    pub signs: Vec<NameAt>,
}

impl GroupIndex {
    ghost use Rattle.nsc_index.specs.Groups.{IsGroupIndex};

    /// The index of a group file. Fails only for want of memory.
    pub fn of(alloc: Global, text: &[u8]) -> Result<GroupIndex, NoMemory>
        requires { length text.now ≤ file_limit }
        ensures { IfOk result (IsGroupIndex text.now) }
    {
        let mut names = Vec::new(alloc);
        let mut ids = Vec::new(alloc);
        let mut members = Vec::new(alloc);
        let mut signs = Vec::new(alloc);
        let mut from = 0;
        while let Some(line) = line_at(text, from) {
            if let Some(group) = group_line(text, line.span) {
                names.push(NameAt::new(group.name, line.span))?;
                ids.push(NumberAt::new(group.gid, line.span))?;
                add_members(text, line.span, group.members, &mut members)?;
            }
            add_sign(text, line.span, &mut signs)?;
            from = line.next;
        }
        Ok(GroupIndex {
            names: sorted_names(text, Case::Counts, names)?,
            ids: sorted_numbers(ids)?,
            members: sorted_names(text, Case::Counts, members)?,
            signs: sorted_signs(text, signs)?,
        })
    }

    /// The first line of this name that has the form, as places in the file that this is the index of. `None` where there is
    /// none. Takes no memory.
    pub fn by_name(&self, text: &[u8], name: &[u8]) -> Option<GroupAt>
        requires { IsGroupIndex text.now self.now }
        ensures entry { option_map (group_at text.now) result ≡ first_named group_of_line (λ g. bytes_eq g.name name.now) text.now }
        ensures inside { IfSome result (GroupLiesIn (record { from = 0; to = length text.now })) }
    {
        let at = places_of_name(text, Case::Counts, &self.names, name).first()?;
        group_on(text, at.line)
    }

    /// The first line of this group id that has the form, as places in the file that this is the index of. `None` where there
    /// is none. Takes no memory.
    pub fn by_id(&self, text: &[u8], gid: u32) -> Option<GroupAt>
        requires { IsGroupIndex text.now self.now }
        ensures entry { option_map (group_at text.now) result ≡ first_named group_of_line (λ g. g.gid == gid) text.now }
        ensures inside { IfSome result (GroupLiesIn (record { from = 0; to = length text.now })) }
    {
        let at = places_of_number(&self.ids, gid).first()?;
        group_on(text, at.line)
    }

    /// The ids of the groups that have the user as a member, in the order of the file that this is the index of, each once.
    /// Fails only for want of memory.
    pub fn ids_of(&self, alloc: Global, text: &[u8], user: &[u8]) -> Result<Ids, NoMemory>
        requires { IsGroupIndex text.now self.now }
        ensures { IfOk result (λ ids. ids ≡ ids_of user.now text.now) }
    {
        let mut ids = OnceIds::new(alloc);
        for at in places_of_name(text, Case::Counts, &self.members, user) {
            if let Some(group) = group_on(text, at.line) {
                ids.add(group.gid)?;
            }
        }
        Ok(ids.into_ids())
    }

    /// The name and id of each group that has the user as a member, in the order of the file that this is the index of, none
    /// dropped. Fails only for want of memory.
    pub fn named_groups(
        &self,
        alloc: Global,
        text: &[u8],
        user: &[u8],
    ) -> Result<Vec<NamedId>, NoMemory>
        requires { IsGroupIndex text.now self.now }
        ensures { IfOk result (λ groups. map pair_of groups.items ≡ pairs_of user.now (Some text.now)) }
    {
        let mut groups = Vec::new(alloc);
        let mut last = None;
        for at in places_of_name(text, Case::Counts, &self.members, user) {
            // A user who is named twice in a line has two rows of it, side by side.
            if last != Some(at.line) {
                if let Some(group) = named_on(alloc, text, at.line)? {
                    groups.push(group)?;
                }
            }
            last = Some(at.line);
        }
        Ok(groups)
    }

    /// The lines that matter to compat for the entry of this name: those of the name, and those that speak by a sign on it or on
    /// every name. Fails only for want of memory.
    pub fn lines_of_name(
        &self,
        alloc: Global,
        text: &[u8],
        name: &[u8],
    ) -> Result<Vec<Span>, NoMemory>
        requires { IsGroupIndex text.now self.now }
        ensures { IfOk result (λ lines. AreLines text.now (matters group_of_line (group_named name.now) (λ other. bytes_eq other name.now)) lines.items) }
    {
        let mut places = Vec::new(alloc);
        let named = places_of_name(text, Case::Counts, &self.names, name);
        add_named(named, &mut places)?;
        add_signs_on(text, &self.signs, name, &mut places)?;
        let lines = lines_at(alloc, text, places)?;
        Ok(lines)
    }

    /// The lines that matter to compat for the entry of this group id, where there is one: those of the id, and all that speak by
    /// a sign. Fails only for want of memory.
    pub fn lines_of_id(
        &self,
        alloc: Global,
        text: &[u8],
        gid: Option<u32>,
    ) -> Result<Vec<Span>, NoMemory>
        requires { IsGroupIndex text.now self.now }
        ensures { IfOk result (λ lines. AreLines text.now (matters group_of_line (λ g. is_id gid g.gid) (λ other. true)) lines.items) }
    {
        let mut places = Vec::new(alloc);
        self.add_lines_of_id(text, gid, &mut places)?;
        add_named(&self.signs, &mut places)?;
        let lines = lines_at(alloc, text, places)?;
        Ok(lines)
    }

    /// The lines that matter to compat for the groups of a user: those that have the user as a member, and all that speak by a
    /// sign. Fails only for want of memory.
    pub fn lines_of_member(
        &self,
        alloc: Global,
        text: &[u8],
        user: &[u8],
    ) -> Result<Vec<Span>, NoMemory>
        requires { IsGroupIndex text.now self.now }
        ensures { IfOk result (λ lines. AreLines text.now (matters group_of_line (has_member user.now) (λ other. true)) lines.items) }
    {
        let mut places = Vec::new(alloc);
        let named = places_of_name(text, Case::Counts, &self.members, user);
        add_named(named, &mut places)?;
        add_named(&self.signs, &mut places)?;
        let lines = lines_at(alloc, text, places)?;
        Ok(lines)
    }

    // Adds the places of the lines of a group id, where there is one.
    fn add_lines_of_id(
        &self,
        text: &[u8],
        gid: Option<u32>,
        places: &mut Vec<u32>,
    ) -> Result<(), NoMemory>
        requires { IsGroupIndex text.now self.now }
        ensures { OnOk result (Adds text.now (λ line. is_some (if_named (λ g. is_id gid g.gid) (group_of_line line))) places.old.items places.new.items) }
    {
        let Some(gid) = gid else {
            return Ok(());
        };
        add_numbered(places_of_number(&self.ids, gid), places)?;
        Ok(())
    }
}

// The name and id of the group of the line that begins at a place, where it has the form.
fn named_on(alloc: Global, text: &[u8], place: u32) -> Result<Option<NamedId>, NoMemory>
    ensures { IfOk result (λ group. option_map pair_of group ≡ option_map (λ at. (part text.now at.name, at.gid)) (on_line (group_places text.now) text.now place)) }
{
    let Some(at) = group_on(text, place) else {
        return Ok(None);
    };
    Ok(Some(NamedId {
        name: Bytes::copy(alloc, at.name.of(text))?,
        gid: at.gid,
    }))
}

// Adds the members that a part of a line names: the pieces between commas that are not empty.
fn add_members(
    text: &[u8],
    line: Span,
    within: Span,
    members: &mut Vec<NameAt>,
) -> Result<(), NoMemory>
    requires line { line.to < 2 ^ 32 }
    requires inside { within.to ≤ length text.now }
    requires within { within.to < 2 ^ 32 }
    ensures { OnOk result (members.new.items ≡ members.old.items ++ members_at text.now line within) }
{
    let mut from = within.from();
    while let Some(piece) = field_at(text, within, from, b',') {
        if !piece.span.of(text).is_empty() {
            members.push(NameAt::new(piece.span, line))?;
        }
        from = piece.next;
    }
    Ok(())
}

// The entry of the line that begins at a place, where it has the form.
fn group_on(text: &[u8], place: u32) -> Option<GroupAt>
    ensures entry { result ≡ on_line (group_places text.now) text.now place }
    ensures inside { IfSome result (GroupLiesIn (record { from = 0; to = length text.now })) }
{
    group_line(text, line_on(text, place)?)
}
