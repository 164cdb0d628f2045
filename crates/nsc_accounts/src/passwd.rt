// Lines of passwd(5): the ids of an entry, and the places of its texts.
ghost use Rattle.std.specs.Prelude.{◌≡◌, ◌≤◌, All, IfSome, length};
ghost use Rattle.std.specs.Option.{option_map};
ghost use Rattle.nsc_base.specs.declared.span.Span.{Span};
ghost use Rattle.nsc_base.specs.Text.{LiesIn, part};
ghost use Rattle.nsc_model.specs.Users.{user_of_line};
ghost use Rattle.nsc_accounts.specs.Passwd.{UserLiesIn, user_at, user_of_spans, user_places};

use crate::fields::{is_name, line_fields, number};
use nsc_base::Span;

/// Where the texts of a user's entry stand in a text, and its ids.
#[derive(Clone, Copy, Debug, PartialEq, Eq)]
pub struct PasswdAt {
    /// The login name.
    pub name: Span,
    /// The password field.
    pub passwd: Span,
    /// The user's id.
    pub uid: u32,
    /// The id of the user's primary group.
    pub gid: u32,
    /// The user's full name and the like.
    pub gecos: Span,
    /// The home directory.
    pub dir: Span,
    /// The login shell.
    pub shell: Span,
}

/// The entry of a line of a passwd file, passwd(5), as places in the text: `name:passwd:uid:gid:gecos:dir:shell`. Blanks
/// and tabs at the front of the line do not count. `None` where the line lacks the form: it has more or fewer than seven
/// fields, a zero byte, an id that is not a decimal number below 2^32, or a name that is empty or begins with `#`, `+`
/// or `-`. Takes no memory.
pub fn passwd_line(text: &[u8], line: Span) -> Option<PasswdAt>
    requires { line.to ≤ length text.now }
    ensures places { result ≡ user_places text.now line }
    ensures entry { option_map (user_at text.now) result ≡ user_of_line (part text.now line) }
    ensures inside { IfSome result (UserLiesIn line) }
{
    entry_of(text, line_fields::<7>(text, line)?)
}

// The entry of seven fields, where the first may be a name and the ids are numbers. What the fields lie in, the entry
// lies in.
fn entry_of(text: &[u8], fields: [Span; 7]) -> Option<PasswdAt>
    requires { All (LiesIn (record { from = 0; to = length text.now })) fields }
    ensures places { result ≡ user_of_spans text.now fields }
    ensures inside { IfSome result (λ at. (within : Span) → All (LiesIn within) fields → UserLiesIn within at) }
{
    let [name, passwd, uid, gid, gecos, dir, shell] = fields;
    if !is_name(text, name) {
        return None;
    }
    let uid = number(text, uid)?;
    let gid = number(text, gid)?;
    Some(PasswdAt {
        name,
        passwd,
        uid,
        gid,
        gecos,
        dir,
        shell,
    })
}
