// The texts of answers, from the bytes that spell replies.
ghost use Rattle.std.specs.Prelude.{◌≡◌, ◌++◌, ◌∷◌, [], ℕ, List, flat_map, OnOk};
ghost use Rattle.std.specs.List.{join_with_byte};
ghost use Rattle.nsc_model.specs.declared.row.Group.{Group};
ghost use Rattle.nsc_model.specs.declared.row.Host.{Host};
ghost use Rattle.nsc_model.specs.declared.row.Reply.{Reply};
ghost use Rattle.nsc_model.specs.declared.row.Service.{Service};
ghost use Rattle.nsc_model.specs.Wire.{IsHost, Spells};
ghost use Rattle.nsc_client.specs.GateText.{group_text, host_text, reply_text, service_text, user_text};
ghost use Rattle.nsc_client.specs.Hits.{SaysHit, SaysReply, SpellsHit};
ghost use Rattle.nsc_client.specs.Lent.{LendsGroup, LendsHost, LendsService, LendsTexts, user_of};
ghost use Rattle.nsc_client.specs.Sent.{SpellsReply};

use crate::hits::{Hit, is_found};
use crate::lent::{
    LentGroup, LentHost, LentService, LentTexts, LentUser, lend_group, lend_host, lend_service,
    lend_user, next_text,
};
use crate::texts::{put_address, put_after, put_number_after};
use nsc_base::NoMemory;
use nsc_model::{Kind, Shape};

/// Writes the line of a hit in place of what the text holds. `bytes` spell the reply of the hit, if it has one.
pub(crate) fn write_hit(text: &mut Vec<u8>, hit: Hit, bytes: &[u8]) -> Result<(), NoMemory>
    requires { SpellsHit hit bytes.now }
    ensures { OnOk result (SaysHit hit bytes.now text.new.items) }
{
    text.clear();
    match hit {
        Hit::Bad => Ok(text.extend_from_slice(b"bad line\n")?),
        Hit::Reply(kind) => put_line(text, kind, bytes),
    }
}

// Puts the line of the reply that these bytes spell into an empty text.
fn put_line(text: &mut Vec<u8>, kind: Kind, bytes: &[u8]) -> Result<(), NoMemory>
    requires empty { text.old.items ≡ [] }
    requires spelled { SpellsReply kind bytes.now }
    ensures { OnOk result (SaysReply kind bytes.now text.new.items) }
{
    put_spelled(text, kind, bytes)?;
    Ok(text.push(b'\n')?)
}

// Puts the text of the reply that these bytes spell after the bytes that are there.
fn put_spelled(out: &mut Vec<u8>, kind: Kind, bytes: &[u8]) -> Result<(), NoMemory>
    requires { SpellsReply kind bytes.now }
    ensures { (reply : Reply) → Spells kind reply bytes.now → OnOk result (out.new.items ≡ out.old.items ++ reply_text reply) }
{
    if !is_found(bytes) {
        return Ok(out.extend_from_slice(b"not found")?);
    }
    match kind.shape() {
        Shape::User => put_user(out, &lend_user(bytes)),
        Shape::Group => put_group(out, &lend_group(bytes)),
        Shape::Host => put_host(out, &lend_host(bytes)),
        Shape::Service => put_service(out, &lend_service(bytes)),
        // No line asks for these.
        Shape::Addresses | Shape::Ids | Shape::Netgroup | Shape::Member => Ok(()),
    }
}

// Puts name:passwd:uid:gid:gecos:dir:shell.
fn put_user(out: &mut Vec<u8>, user: &LentUser<'_>) -> Result<(), NoMemory>
    ensures { OnOk result (out.new.items ≡ out.old.items ++ user_text (user_of user.now)) }
{
    out.extend_from_slice(user.name)?;
    put_after(out, b':', user.passwd)?;
    put_number_after(out, b':', user.uid)?;
    put_number_after(out, b':', user.gid)?;
    put_home(out, user)
}

// Puts :gecos:dir:shell.
fn put_home(out: &mut Vec<u8>, user: &LentUser<'_>) -> Result<(), NoMemory>
    ensures { OnOk result (out.new.items ≡ out.old.items ++ 58 ∷ user.now.gecos.now ++ 58 ∷ user.now.dir.now ++ 58 ∷ user.now.shell.now) }
{
    put_after(out, b':', user.gecos)?;
    put_after(out, b':', user.dir)?;
    put_after(out, b':', user.shell)
}

// Puts name:passwd:gid:member,member.
fn put_group(out: &mut Vec<u8>, group: &LentGroup<'_>) -> Result<(), NoMemory>
    ensures { (row : Group) → LendsGroup group.now row → OnOk result (out.new.items ≡ out.old.items ++ group_text row) }
{
    out.extend_from_slice(group.name)?;
    put_after(out, b':', group.passwd)?;
    put_number_after(out, b':', group.gid)?;
    out.push(b':')?;
    put_members(out, group.members)
}

// Puts the names of members with commas between them.
fn put_members(out: &mut Vec<u8>, members: LentTexts<'_>) -> Result<(), NoMemory>
    ensures { (texts : List (List ℕ)) → LendsTexts members.entry texts → OnOk result (out.new.items ≡ out.old.items ++ join_with_byte 44 texts) }
{
    if members.count == 0 {
        return Ok(());
    }
    let (first, bytes) = next_text(members.bytes);
    out.extend_from_slice(first)?;
    let count = members.count - 1;
    put_each_after(out, b',', LentTexts { count, bytes })
}

// Puts address name alias alias.
fn put_host(out: &mut Vec<u8>, host: &LentHost<'_>) -> Result<(), NoMemory>
    ensures { (row : Host) → IsHost row → LendsHost host.now row → OnOk result (out.new.items ≡ out.old.items ++ host_text row) }
{
    put_address(out, host.family, host.address)?;
    put_after(out, b' ', host.name)?;
    put_each_after(out, b' ', host.aliases)
}

// Puts name port/proto alias alias.
fn put_service(out: &mut Vec<u8>, service: &LentService<'_>) -> Result<(), NoMemory>
    ensures { (row : Service) → LendsService service.now row → OnOk result (out.new.items ≡ out.old.items ++ service_text row) }
{
    out.extend_from_slice(service.name)?;
    put_number_after(out, b' ', service.port)?;
    put_after(out, b'/', service.proto)?;
    put_each_after(out, b' ', service.aliases)
}

// Puts texts, each after a separator.
fn put_each_after(out: &mut Vec<u8>, separator: u8, texts: LentTexts<'_>) -> Result<(), NoMemory>
    ensures { (all : List (List ℕ)) → LendsTexts texts.entry all → OnOk result (out.new.items ≡ out.old.items ++ flat_map (λ text. separator ∷ text) all) }
{
    let mut rest = texts.bytes;
    for at in 0..texts.count {
        let (text, bytes) = next_text(rest);
        put_after(out, separator, text)?;
        rest = bytes;
    }
    Ok(())
}
