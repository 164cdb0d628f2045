// Lookups in passwd(5) and group(5) by name and by id, over a whole file and over one line.
ghost use Rattle.std.specs.Prelude.{◌≡◌, ◌≤◌, ◌↔◌, ◌++◌, ◌∷◌, ◌==◌, ℕ, List, IfSome, IsTrue, length};
ghost use Rattle.std.specs.Option.{option_map};
ghost use Rattle.std.specs.Str.{bytes_eq};
ghost use Rattle.nsc_base.specs.Found.{FirstOf};
ghost use Rattle.nsc_base.specs.Text.{line_spans, part, trimmed};
ghost use Rattle.nsc_base.specs.declared.span.Span.{Span};
ghost use Rattle.nsc_model.specs.Users.{user_of_line};
ghost use Rattle.nsc_model.specs.Groups.{group_of_line};
ghost use Rattle.nsc_model.specs.Entries.{first_named};
ghost use Rattle.nsc_accounts.specs.Group.{GivesGroup, GroupLiesIn, group_at};
ghost use Rattle.nsc_accounts.specs.Passwd.{GivesUser, UserLiesIn, user_at};

use crate::fields::id_of_line;
use crate::group::{GroupAt, group_line};
use crate::passwd::{PasswdAt, passwd_line};
use itoa::Buffer;
use nsc_base::{Case, Span, equal, first_line_with, trim_front};

/// The first line of a passwd file, passwd(5), that has the form of an entry and this name, as places in the file.
/// `None` where there is none. Takes no memory.
pub fn find_passwd_by_name(text: &[u8], name: &[u8]) -> Option<PasswdAt>
    ensures first { FirstOf (GivesUser text.now (λ at. bytes_eq (part text.now at.name) name.now)) (line_spans text.now 0) result }
    ensures entry { option_map (user_at text.now) result ≡ first_named user_of_line (λ p. bytes_eq p.name name.now) text.now }
    ensures inside { IfSome result (UserLiesIn (record { from = 0; to = length text.now })) }
{
    first_line_with(
        text,
        name,
        Case::Counts,
        |line| user_named(text, line, name),
    )
}

/// The first line of a passwd file, passwd(5), that has the form of an entry and this user id, as places in the file.
/// `None` where there is none. Takes no memory.
pub fn find_passwd_by_uid(text: &[u8], uid: u32) -> Option<PasswdAt>
    ensures first { FirstOf (GivesUser text.now (λ at. at.uid == uid)) (line_spans text.now 0) result }
    ensures entry { option_map (user_at text.now) result ≡ first_named user_of_line (λ p. p.uid == uid) text.now }
    ensures inside { IfSome result (UserLiesIn (record { from = 0; to = length text.now })) }
{
    // Whatever zeros stand before them, the digits of the id stand in each line that has it.
    let mut buffer = Buffer::new();
    let digits = buffer.format(uid).as_bytes();
    first_line_with(
        text,
        digits,
        Case::Counts,
        |line| user_numbered(text, line, uid),
    )
}

/// The first line of a group file, group(5), that has the form of an entry and this name, as places in the file. `None`
/// where there is none. Takes no memory.
pub fn find_group_by_name(text: &[u8], name: &[u8]) -> Option<GroupAt>
    ensures first { FirstOf (GivesGroup text.now (λ at. bytes_eq (part text.now at.name) name.now)) (line_spans text.now 0) result }
    ensures entry { option_map (group_at text.now) result ≡ first_named group_of_line (λ g. bytes_eq g.name name.now) text.now }
    ensures inside { IfSome result (GroupLiesIn (record { from = 0; to = length text.now })) }
{
    first_line_with(
        text,
        name,
        Case::Counts,
        |line| group_named(text, line, name),
    )
}

/// The first line of a group file, group(5), that has the form of an entry and this group id, as places in the file.
/// `None` where there is none. Takes no memory.
pub fn find_group_by_gid(text: &[u8], gid: u32) -> Option<GroupAt>
    ensures first { FirstOf (GivesGroup text.now (λ at. at.gid == gid)) (line_spans text.now 0) result }
    ensures entry { option_map (group_at text.now) result ≡ first_named group_of_line (λ g. g.gid == gid) text.now }
    ensures inside { IfSome result (GroupLiesIn (record { from = 0; to = length text.now })) }
{
    // Whatever zeros stand before them, the digits of the id stand in each line that has it.
    let mut buffer = Buffer::new();
    let digits = buffer.format(gid).as_bytes();
    first_line_with(
        text,
        digits,
        Case::Counts,
        |line| group_numbered(text, line, gid),
    )
}

/// The entry of a line of a passwd file, passwd(5), that has the form and this name, as places in the file. `None` for any
/// other line; one that does not begin with the name and a colon is given up before its fields are read. Takes no memory.
pub fn user_named(text: &[u8], line: Span, name: &[u8]) -> Option<PasswdAt>
    requires { line.to ≤ length text.now }
    ensures given { GivesUser text.now (λ at. bytes_eq (part text.now at.name) name.now) line result }
    ensures inside { IfSome result (UserLiesIn line) }
    ensures ordered { line.from ≤ line.to }
{
    if !begins_with_name(line.of(text), name) {
        return None;
    }
    let entry = passwd_line(text, line)?;
    if equal(entry.name.of(text), name) {
        Some(entry)
    } else {
        None
    }
}

/// The entry of a line of a group file, group(5), that has the form and this name, as places in the file. `None` for any
/// other line; one that does not begin with the name and a colon is given up before its fields are read. Takes no memory.
pub fn group_named(text: &[u8], line: Span, name: &[u8]) -> Option<GroupAt>
    requires { line.to ≤ length text.now }
    ensures given { GivesGroup text.now (λ at. bytes_eq (part text.now at.name) name.now) line result }
    ensures inside { IfSome result (GroupLiesIn line) }
    ensures ordered { line.from ≤ line.to }
{
    if !begins_with_name(line.of(text), name) {
        return None;
    }
    let group = group_line(text, line)?;
    if equal(group.name.of(text), name) {
        Some(group)
    } else {
        None
    }
}

/// The entry of a line of a passwd file, passwd(5), that has the form and this user id, as places in the file. `None` for
/// any other line; one whose third field does not spell the id is given up after that field. Takes no memory.
pub fn user_numbered(text: &[u8], line: Span, uid: u32) -> Option<PasswdAt>
    requires { line.to ≤ length text.now }
    ensures given { GivesUser text.now (λ at. at.uid == uid) line result }
    ensures inside { IfSome result (UserLiesIn line) }
    ensures ordered { line.from ≤ line.to }
{
    let id = id_of_line(text, line)?;
    if id == uid {
        passwd_line(text, line)
    } else {
        None
    }
}

/// The entry of a line of a group file, group(5), that has the form and this group id, as places in the file. `None` for
/// any other line; one whose third field does not spell the id is given up after that field. Takes no memory.
pub fn group_numbered(text: &[u8], line: Span, gid: u32) -> Option<GroupAt>
    requires { line.to ≤ length text.now }
    ensures given { GivesGroup text.now (λ at. at.gid == gid) line result }
    ensures inside { IfSome result (GroupLiesIn line) }
    ensures ordered { line.from ≤ line.to }
{
    let id = id_of_line(text, line)?;
    if id == gid {
        group_line(text, line)
    } else {
        None
    }
}

// Whether a line begins with the name and a colon, after white space.
fn begins_with_name(line: &[u8], name: &[u8]) -> bool
    ensures { IsTrue result ↔ ((rest : List ℕ) × (trimmed line.now ≡ name.now ++ 58 ∷ rest)) }
{
    begins_with_field(trim_front(line), name)
}

// Whether the bytes begin with this field and a colon.
fn begins_with_field(bytes: &[u8], field: &[u8]) -> bool
    ensures { IsTrue result ↔ ((rest : List ℕ) × (bytes.now ≡ field.now ++ 58 ∷ rest)) }
{
    if bytes.len() <= field.len() {
        return false;
    }
    bytes[field.len()] == b':' && &bytes[..field.len()] == field
}
