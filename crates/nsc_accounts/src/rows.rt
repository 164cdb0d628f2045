// Rows of users and groups: copies of the texts of an entry of passwd(5) or group(5).
ghost use Rattle.std.specs.Prelude.{◌≡◌, ◌≤◌, length, IfOk};
ghost use Rattle.nsc_base.specs.Text.{part};
ghost use Rattle.nsc_model.specs.Groups.{members_of};
ghost use Rattle.nsc_accounts.specs.Group.{GroupLiesIn, group_at};
ghost use Rattle.nsc_accounts.specs.Passwd.{UserLiesIn, user_at};

use crate::group::GroupAt;
use crate::passwd::PasswdAt;
use nsc_base::{Bytes, NoMemory, Span, Texts};
use nsc_model::{Group, Passwd};
use std::alloc::Global;

/// The user whose entry stands at these places of a text, with copies of its texts. Fails only for want of memory.
pub fn user_row(alloc: Global, text: &[u8], at: &PasswdAt) -> Result<Passwd, NoMemory>
    requires { UserLiesIn (record { from = 0; to = length text.now }) at.now }
    ensures { IfOk result (λ user. user ≡ user_at text.now at.now) }
{
    Ok(Passwd {
        name: Bytes::copy(alloc, at.name.of(text))?,
        passwd: Bytes::copy(alloc, at.passwd.of(text))?,
        uid: at.uid,
        gid: at.gid,
        gecos: Bytes::copy(alloc, at.gecos.of(text))?,
        dir: Bytes::copy(alloc, at.dir.of(text))?,
        shell: Bytes::copy(alloc, at.shell.of(text))?,
    })
}

/// The group whose entry stands at these places of a text, with copies of its texts. Fails only for want of memory.
pub fn group_row(alloc: Global, text: &[u8], at: &GroupAt) -> Result<Group, NoMemory>
    requires { GroupLiesIn (record { from = 0; to = length text.now }) at.now }
    ensures { IfOk result (λ group. group ≡ group_at text.now at.now) }
{
    Ok(Group {
        name: Bytes::copy(alloc, at.name.of(text))?,
        passwd: Bytes::copy(alloc, at.passwd.of(text))?,
        gid: at.gid,
        members: members(alloc, text, at.members)?,
    })
}

// The members that a part of a text names: the pieces between commas that are not empty.
fn members(alloc: Global, text: &[u8], within: Span) -> Result<Texts, NoMemory>
    requires { within.to ≤ length text.now }
    ensures { IfOk result (λ members. members ≡ members_of (part text.now within)) }
{
    let names = within.of(text);
    if names.is_empty() {
        return Ok(Texts::new(alloc));
    }
    Texts::split(alloc, names, b',')
}
