// `UserIndex`: the index of a passwd file by name, user id and sign.
ghost use Rattle.std.specs.Prelude.{◌≡◌, ◌==◌, ◌≤◌, IfOk, IfSome, filter, length, true};
ghost use Rattle.std.specs.List.{filter_map};
ghost use Rattle.std.specs.Option.{is_some, option_map};
ghost use Rattle.std.specs.Str.{bytes_eq};
ghost use Rattle.nsc_model.specs.Users.{user_of_line};
ghost use Rattle.nsc_base.specs.Text.{part};
ghost use Rattle.nsc_model.specs.Answers.{is_id, user_named as is_named};
ghost use Rattle.nsc_model.specs.Entries.{first_named, first_of, if_named};
ghost use Rattle.nsc_model.specs.Files.{file_limit};
ghost use Rattle.nsc_accounts.specs.Passwd.{UserLiesIn, user_at, user_places};
ghost use Rattle.nsc_accounts.specs.Matters.{AreLines, matters};
ghost use Rattle.nsc_index.specs.Indexes.{on_line};
ghost use Rattle.nsc_index.specs.Users.{users_named};

use crate::chains::Chains;
use crate::fronts::add_front;
use crate::lines::{line_on, next_line};
use crate::names::NameAt;
use crate::numbers::text_number;
use crate::places::{add_named, lines_at};
use crate::signs::{add_sign, add_signs_on, sorted_signs};
use nsc_accounts::{PasswdAt, user_named, user_numbered};
use nsc_base::{NoMemory, Span};
use std::alloc::Global;

// The bytes of a short line: there is room at once for the rows of as many lines as stand in the text at this length.
const SHORT_LINE: usize = 32;

// The most rows that there is room for at once.
const MOST_ROOM: usize = 0x4_0000;

/// The lines of a passwd file, passwd(5), by the numbers of their names and by their user ids: twenty-eight bytes for a line. Whether a
/// line has the form is judged when it is looked up. Beside them the names on which lines speak by a sign, as the service compat reads
/// them: twelve bytes for such a line.
#[derive(Debug, Drop)]
pub struct UserIndex {
    /// The numbers of the names.
    pub names: Chains,
    /// The user ids.
    pub ids: Chains,
    /// The names after signs.
    pub signs: Vec<NameAt>,
}

impl UserIndex {
    ghost use Rattle.nsc_index.specs.Users.{IsUserIndex};

    /// The index of a passwd file. Fails only for want of memory.
    pub fn of(alloc: Global, text: &[u8]) -> Result<UserIndex, NoMemory>
        requires { length text.now ≤ file_limit }
        ensures { IfOk result (IsUserIndex text.now) }
    {
        let room = (text.len() / SHORT_LINE).min(MOST_ROOM);
        let mut names = Vec::with_capacity(alloc, room)?;
        let mut ids = Vec::with_capacity(alloc, room)?;
        let mut signs = Vec::new(alloc);
        let mut from = 0;
        while let Some(line) = next_line(text, from) {
            add_front(text, line.span, &mut names, &mut ids)?;
            add_sign(text, line.span, &mut signs)?;
            from = line.next;
        }
        Ok(UserIndex {
            names: Chains::of(alloc, names)?,
            ids: Chains::of(alloc, ids)?,
            signs: sorted_signs(text, signs)?,
        })
    }

    /// The first line of this name that has the form, as places in the file that this is the index of. `None` where there is
    /// none. Fails only for want of memory.
    pub fn by_name(
        &self,
        alloc: Global,
        text: &[u8],
        name: &[u8],
    ) -> Result<Option<PasswdAt>, NoMemory>
        requires { IsUserIndex text.now self.now }
        ensures entry { IfOk result (λ found. option_map (user_at text.now) found ≡ first_named user_of_line (λ p. bytes_eq p.name name.now) text.now) }
        ensures inside { IfOk result (λ found. IfSome found (UserLiesIn (record { from = 0; to = length text.now }))) }
    {
        let lines = self.names.lines_of(alloc, text_number(name))?;
        Ok(first_named(text, &lines, name))
    }

    /// The first line of this user id that has the form, as places in the file that this is the index of. `None` where there is
    /// none. Fails only for want of memory.
    pub fn by_id(&self, alloc: Global, text: &[u8], uid: u32) -> Result<Option<PasswdAt>, NoMemory>
        requires { IsUserIndex text.now self.now }
        ensures entry { IfOk result (λ found. option_map (user_at text.now) found ≡ first_named user_of_line (λ p. p.uid == uid) text.now) }
        ensures inside { IfOk result (λ found. IfSome found (UserLiesIn (record { from = 0; to = length text.now }))) }
    {
        let lines = self.ids.lines_of(alloc, uid)?;
        Ok(first_numbered(text, &lines, uid))
    }

    /// The lines that matter to compat for the entry of this name: those of the name, and those that speak by a sign on it or on
    /// every name. Fails only for want of memory.
    pub fn lines_of_name(
        &self,
        alloc: Global,
        text: &[u8],
        name: &[u8],
    ) -> Result<Vec<Span>, NoMemory>
        requires { IsUserIndex text.now self.now }
        ensures { IfOk result (λ lines. AreLines text.now (matters user_of_line (is_named name.now) (λ other. bytes_eq other name.now)) lines.items) }
    {
        let mut places = self.places_of_name(alloc, text, name)?;
        add_signs_on(text, &self.signs, name, &mut places)?;
        let lines = lines_at(alloc, text, places)?;
        Ok(lines)
    }

    /// The lines that matter to compat for the entry of this user id, where there is one: those of the id, and all that speak by a
    /// sign. Fails only for want of memory.
    pub fn lines_of_id(
        &self,
        alloc: Global,
        text: &[u8],
        uid: Option<u32>,
    ) -> Result<Vec<Span>, NoMemory>
        requires { IsUserIndex text.now self.now }
        ensures { IfOk result (λ lines. AreLines text.now (matters user_of_line (λ p. is_id uid p.uid) (λ other. true)) lines.items) }
    {
        let mut places = self.places_where(alloc, text, uid)?;
        add_named(&self.signs, &mut places)?;
        let lines = lines_at(alloc, text, places)?;
        Ok(lines)
    }

    // The places of the lines of a user id that have the form, in their order. None are those of no id.
    fn places_where(
        &self,
        alloc: Global,
        text: &[u8],
        uid: Option<u32>,
    ) -> Result<Vec<u32>, NoMemory>
        requires { IsUserIndex text.now self.now }
        ensures { IfOk result (λ places. places.items ≡ users_named text.now (λ at. is_id uid at.uid)) }
    {
        match uid {
            Some(uid) => self.places_of_id(alloc, text, uid),
            None => Ok(Vec::new(alloc)),
        }
    }

    // The places of the lines of a name that have the form, in their order: of the lines whose names give its number, those
    // that have it.
    fn places_of_name(&self, alloc: Global, text: &[u8], name: &[u8]) -> Result<Vec<u32>, NoMemory>
        requires { IsUserIndex text.now self.now }
        ensures { IfOk result (λ places. places.items ≡ users_named text.now (λ at. bytes_eq (part text.now at.name) name.now)) }
    {
        let lines = self.names.lines_of(alloc, text_number(name))?;
        with_name(alloc, text, &lines, name)
    }

    // The places of the lines of a user id that have the form, in their order: of the lines that spell it, those that have it.
    fn places_of_id(&self, alloc: Global, text: &[u8], uid: u32) -> Result<Vec<u32>, NoMemory>
        requires { IsUserIndex text.now self.now }
        ensures { IfOk result (λ places. places.items ≡ users_named text.now (λ at. at.uid == uid)) }
    {
        let lines = self.ids.lines_of(alloc, uid)?;
        with_id(alloc, text, &lines, uid)
    }
}

// Of these places, those at which a line begins that has the form and this name.
fn with_name(alloc: Global, text: &[u8], places: &[u32], name: &[u8]) -> Result<Vec<u32>, NoMemory>
    ensures { IfOk result (λ named. named.items ≡ filter (λ place. is_some (if_named (λ at. bytes_eq (part text.now at.name) name.now) (on_line (user_places text.now) text.now place))) places.now) }
{
    let named = places
        .iter()
        .copied()
        .filter(|place| named_on(text, *place, name).is_some())
        .collect(alloc)?;
    Ok(named)
}

// Of these places, those at which a line begins that has the form and this user id.
fn with_id(alloc: Global, text: &[u8], places: &[u32], uid: u32) -> Result<Vec<u32>, NoMemory>
    ensures { IfOk result (λ numbered. numbered.items ≡ filter (λ place. is_some (if_named (λ at. at.uid == uid) (on_line (user_places text.now) text.now place))) places.now) }
{
    let numbered = places
        .iter()
        .copied()
        .filter(|place| numbered_on(text, *place, uid).is_some())
        .collect(alloc)?;
    Ok(numbered)
}

// Of the entries of the lines that begin at these places, the first one that has this name.
fn first_named(text: &[u8], places: &[u32], name: &[u8]) -> Option<PasswdAt>
    ensures entry { result ≡ first_of (filter (λ at. bytes_eq (part text.now at.name) name.now) (filter_map (on_line (user_places text.now) text.now) places.now)) }
    ensures inside { IfSome result (UserLiesIn (record { from = 0; to = length text.now })) }
{
    for place in places {
        if let Some(user) = named_on(text, *place, name) {
            return Some(user);
        }
    }
    None
}

// Of the entries of the lines that begin at these places, the first one that has this user id.
fn first_numbered(text: &[u8], places: &[u32], uid: u32) -> Option<PasswdAt>
    ensures entry { result ≡ first_of (filter (λ at. at.uid == uid) (filter_map (on_line (user_places text.now) text.now) places.now)) }
    ensures inside { IfSome result (UserLiesIn (record { from = 0; to = length text.now })) }
{
    for place in places {
        if let Some(user) = numbered_on(text, *place, uid) {
            return Some(user);
        }
    }
    None
}

// The entry of the line that begins at a place, if it has the form and this name.
fn named_on(text: &[u8], place: u32, name: &[u8]) -> Option<PasswdAt>
    ensures entry { result ≡ if_named (λ at. bytes_eq (part text.now at.name) name.now) (on_line (user_places text.now) text.now place) }
    ensures inside { IfSome result (UserLiesIn (record { from = 0; to = length text.now })) }
{
    user_named(text, line_on(text, place)?, name)
}

// The entry of the line that begins at a place, if it has the form and this user id.
fn numbered_on(text: &[u8], place: u32, uid: u32) -> Option<PasswdAt>
    ensures entry { result ≡ if_named (λ at. at.uid == uid) (on_line (user_places text.now) text.now place) }
    ensures inside { IfSome result (UserLiesIn (record { from = 0; to = length text.now })) }
{
    user_numbered(text, line_on(text, place)?, uid)
}
