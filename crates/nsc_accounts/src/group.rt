// Lines of group(5): the id of an entry, and the places of its texts.
ghost use Rattle.std.specs.Prelude.{◌≡◌, ◌≤◌, All, IfSome, length};
ghost use Rattle.std.specs.Option.{option_map};
ghost use Rattle.nsc_base.specs.declared.span.Span.{Span};
ghost use Rattle.nsc_base.specs.Text.{LiesIn, part};
ghost use Rattle.nsc_model.specs.Groups.{group_of_line};
ghost use Rattle.nsc_accounts.specs.Group.{GroupLiesIn, group_at, group_of_spans, group_places};

use crate::fields::{is_name, line_fields, number};
use nsc_base::Span;

/// Where the texts of a group's entry stand in a text, and its id.
#[derive(Clone, Copy, Debug, PartialEq, Eq)]
pub struct GroupAt {
    /// The group's name.
    pub name: Span,
    /// The password field.
    pub passwd: Span,
    /// The group's id.
    pub gid: u32,
    /// The names of the members, with the commas between them.
    pub members: Span,
}

/// The entry of a line of a group file, group(5), as places in the text: `name:passwd:gid:members`. Blanks and tabs at
/// the front of the line do not count. `None` where the line lacks the form: it has more or fewer than four fields, a
/// zero byte, an id that is not a decimal number below 2^32, or a name that is empty or begins with `#`, `+` or `-`.
/// Takes no memory.
pub fn group_line(text: &[u8], line: Span) -> Option<GroupAt>
    requires { line.to ≤ length text.now }
    ensures places { result ≡ group_places text.now line }
    ensures entry { option_map (group_at text.now) result ≡ group_of_line (part text.now line) }
    ensures inside { IfSome result (GroupLiesIn line) }
{
    group_entry(text, line_fields::<4>(text, line)?)
}

// The entry of four fields, where the first may be a name and the third is a number. What the fields lie in, the entry
// lies in.
fn group_entry(text: &[u8], fields: [Span; 4]) -> Option<GroupAt>
    requires { All (LiesIn (record { from = 0; to = length text.now })) fields }
    ensures places { result ≡ group_of_spans text.now fields }
    ensures inside { IfSome result (λ at. (within : Span) → All (LiesIn within) fields → GroupLiesIn within at) }
{
    let [name, passwd, gid, members] = fields;
    if !is_name(text, name) {
        return None;
    }
    let gid = number(text, gid)?;
    Some(GroupAt {
        name,
        passwd,
        gid,
        members,
    })
}
