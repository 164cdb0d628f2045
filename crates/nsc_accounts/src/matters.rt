//! The lines of a passwd or group file that matter to the service compat, nsswitch.conf(5).

ghost use Rattle.std.specs.Prelude.{◌≡◌, ◌≤◌, IfOk, length};
ghost use Rattle.std.specs.Option.{is_some};
ghost use Rattle.nsc_base.specs.Text.{part};
ghost use Rattle.nsc_model.specs.Compat.{sayings};
ghost use Rattle.nsc_accounts.specs.Matters.{AreLines, entry_matters, matters_for, names_sought, sign_name, speaks_on};

use crate::find::{group_named, group_numbered, user_named, user_numbered};
use crate::members::gid_of_member;
use crate::signs::sign_line;
use crate::sought::Sought;
use nsc_base::{NoMemory, Span, equal, line_at};
use std::alloc::Global;

/// The lines of a text that matter to compat for what is sought: those whose entry is named, and those that speak by a sign on the
/// name that is sought, or on any if none is. Fails only for want of memory.
pub fn lines_that_matter(alloc: Global, text: &[u8], sought: Sought) -> Result<Vec<Span>, NoMemory>
    ensures { IfOk result (λ lines. AreLines text.now (matters_for sought.entry) lines.items) }
{
    let mut lines = Vec::new(alloc);
    let mut from = 0;
    while let Some(line) = line_at(text, from) {
        if matters(text, line.span, &sought) {
            lines.push(line.span)?;
        }
        from = line.next;
    }
    Ok(lines)
}

// Whether a line matters.
fn matters(text: &[u8], line: Span, sought: &Sought) -> bool
    requires { line.to ≤ length text.now }
    ensures { result ≡ matters_for sought.now (part text.now line) }
{
    has_sought(text, line, sought) || speaks(text, line, sought)
}

// Whether a line has the form of an entry, and it is the one that is sought.
fn has_sought(text: &[u8], line: Span, sought: &Sought) -> bool
    requires { line.to ≤ length text.now }
    ensures { result ≡ entry_matters sought.now (part text.now line) }
{
    match sought {
        Sought::User(name) => user_named(text, line, *name).is_some(),
        Sought::UserId(Some(uid)) => user_numbered(text, line, *uid).is_some(),
        Sought::Group(name) => group_named(text, line, *name).is_some(),
        Sought::GroupId(Some(gid)) => group_numbered(text, line, *gid).is_some(),
        Sought::UserId(None) | Sought::GroupId(None) => false,
        Sought::Member(user) => gid_of_member(text, line, *user).is_some(),
    }
}

// Whether a line speaks by a sign on a name that is sought.
fn speaks(text: &[u8], line: Span, sought: &Sought) -> bool
    requires { line.to ≤ length text.now }
    ensures { result ≡ speaks_on (names_sought sought.now) (sign_name (sayings (part text.now line))) }
{
    let Some(sign) = sign_line(text, line) else {
        return false;
    };
    let sign = sign.of(text);
    match sought {
        Sought::User(name) | Sought::Group(name) => sign.is_empty() || equal(sign, *name),
        Sought::UserId(_) | Sought::GroupId(_) | Sought::Member(_) => true,
    }
}
