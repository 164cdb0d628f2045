// The replies to lookups of a user, made and read back.
ghost use Rattle.std.specs.Prelude.{◌≡◌, ◌≤◌, length, IfOk};
ghost use Rattle.nsc_model.specs.Answer.{reply_limit};
ghost use Rattle.nsc_model.specs.Wire.{passwd_found};
ghost use Rattle.nsc_wire.specs.Replies.{Gives, user_at};

use crate::fault::Broken;
use crate::reading::{number, size, text};
use crate::reply::{VERSION, put_fields, put_text, text_len};
use nsc_base::{Bytes, NoMemory};
use nsc_model::Passwd;
use std::alloc::Global;

// The nine fields of a user's reply, in bytes.
const FIELDS: usize = 36;

// The bytes of the reply that has a user: its fields, and its texts.
pub(crate) fn encode_user(alloc: Global, user: &Passwd) -> Result<Bytes, NoMemory>
    requires { length (passwd_found user.now) ≤ reply_limit }
    ensures { IfOk result (λ bytes. bytes ≡ passwd_found user.now) }
{
    let name = text_len(&user.name);
    let passwd = text_len(&user.passwd);
    let gecos = text_len(&user.gecos);
    let dir = text_len(&user.dir);
    let shell = text_len(&user.shell);
    let texts = (name + passwd + gecos + dir + shell) as usize;
    let mut out = Vec::with_capacity(alloc, FIELDS + texts)?;
    let fields = [
        VERSION, 1, name, passwd, user.uid, user.gid, gecos, dir, shell,
    ];
    put_fields(&mut out, &fields)?;
    put_text(&mut out, user.name.as_slice())?;
    put_text(&mut out, user.passwd.as_slice())?;
    put_text(&mut out, user.gecos.as_slice())?;
    put_text(&mut out, user.dir.as_slice())?;
    put_text(&mut out, user.shell.as_slice())?;
    Ok(Bytes::from_vec(out))
}

// The user of a reply, after the fields version and found.
#[tactic(auto, unfolding(crate::specs::Replies::user_at))]
pub(crate) fn decode_user(alloc: Global, bytes: &[u8]) -> Result<(Passwd, &[u8]), Broken>
    ensures { Gives (λ x. (x.0, x.1.now)) result (user_at bytes.now) }
{
    let (name, rest) = size(bytes)?;
    let (passwd, rest) = size(rest)?;
    let (uid, rest) = number(rest)?;
    let (gid, rest) = number(rest)?;
    let (gecos, rest) = size(rest)?;
    let (dir, rest) = size(rest)?;
    let (shell, rest) = size(rest)?;
    let (name, rest) = text(alloc, name, rest)?;
    let (passwd, rest) = text(alloc, passwd, rest)?;
    let (gecos, rest) = text(alloc, gecos, rest)?;
    let (dir, rest) = text(alloc, dir, rest)?;
    let (shell, rest) = text(alloc, shell, rest)?;
    let user = Passwd {
        name,
        passwd,
        uid,
        gid,
        gecos,
        dir,
        shell,
    };
    Ok((user, rest))
}
