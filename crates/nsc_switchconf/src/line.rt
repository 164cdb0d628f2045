// The first line of a list in nsswitch.conf(5), and its part after the colon.
ghost use Rattle.std.specs.Prelude.{◌≡◌, length};
ghost use Rattle.std.specs.Option.{option_copied};
ghost use Rattle.nsc_model.specs.Switches.{first_line, name_text, own_part};

use nsc_base::{before_remark, line_at, trim_front};
use nsc_model::DbName;

/// What the first line of this list has after its colon, up to a remark. `None` where the text has no such line.
pub fn first_part(text: &[u8], name: DbName) -> Option<&[u8]>
    ensures { option_copied result ≡ first_line name text.now }
{
    let mut from = 0;
    while let Some(line) = line_at(text, from) {
        if let Some(part) = list_part(line.span.of(text), name) {
            return Some(part);
        }
        from = line.next;
    }
    None
}

// What a line of this list has after its colon, up to a remark. White space around the name is passed over. `None` where
// the line is not one of this list.
fn list_part(line: &[u8], name: DbName) -> Option<&[u8]>
    ensures { option_copied result ≡ own_part name line.now }
{
    let after_name = trim_front(line).strip_prefix(name_bytes(name))?;
    let after_colon = trim_front(after_name).strip_prefix(b":")?;
    Some(before_remark(after_colon))
}

// The word that begins a line of this list.
fn name_bytes(name: DbName) -> &'static [u8]
    ensures { result.now ≡ name_text name }
{
    match name {
        DbName::Passwd => b"passwd",
        DbName::Group => b"group",
        DbName::Hosts => b"hosts",
        DbName::Services => b"services",
        DbName::PasswdCompat => b"passwd_compat",
        DbName::GroupCompat => b"group_compat",
    }
}
