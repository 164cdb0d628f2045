// Bytes put behind those of a `Vec`, into room that it has.
ghost use Rattle.std.specs.Prelude.{◌≡◌, ◌+◌, ◌≤◌, ◌++◌, length, OnOk, OnErr};
ghost use Rattle.std.specs.Vec.{vec_capacity, vec_len};
ghost use Rattle.nsc_model.specs.Wire.{field};
ghost use Rattle.nsc_model.specs.Image.{image_version, mark_of, saved_bytes, wide_field};

use crate::saved::Saved;
use crate::version::Version;
use byteorder::{ByteOrder, LittleEndian};
use nsc_base::NoMemory;

// Puts these bytes.
pub(crate) fn put(out: &mut Vec<u8>, bytes: &[u8])
    requires { vec_len out.old + length bytes.now ≤ vec_capacity out.old }
    ensures items { out.new.items ≡ out.old.items ++ bytes.now }
    ensures len { vec_len out.new ≡ vec_len out.old + length bytes.now }
    ensures capacity { vec_capacity out.old ≤ vec_capacity out.new }
{
    out.extend_from_slice(bytes).unwrap();
}

// Puts a field of four bytes.
pub(crate) fn put_field(out: &mut Vec<u8>, number: u32)
    requires { vec_len out.old + 4 ≤ vec_capacity out.old }
    ensures items { out.new.items ≡ out.old.items ++ field number }
    ensures len { vec_len out.new ≡ vec_len out.old + 4 }
    ensures capacity { vec_capacity out.old ≤ vec_capacity out.new }
{
    let mut bytes = [0; 4];
    LittleEndian::write_u32(&mut bytes, number);
    put(out, &bytes);
}

// Puts a field of eight bytes.
fn put_wide_field(out: &mut Vec<u8>, number: u64)
    requires { vec_len out.old + 8 ≤ vec_capacity out.old }
    ensures items { out.new.items ≡ out.old.items ++ wide_field number }
    ensures len { vec_len out.new ≡ vec_len out.old + 8 }
    ensures capacity { vec_capacity out.old ≤ vec_capacity out.new }
{
    let mut bytes = [0; 8];
    LittleEndian::write_u64(&mut bytes, number);
    put(out, &bytes);
}

// Gives the mark of a reply: 1 if it is a not-found reply, else 0.
fn mark(not_found: bool) -> u32
    ensures { result ≡ mark_of not_found }
{
    if not_found { 1 } else { 0 }
}

// Takes room for an entry, and puts it as version 3 has it. If memory is short, nothing is put.
pub(crate) fn put_saved(out: &mut Vec<u8>, saved: &Saved) -> Result<(), NoMemory>
    ensures ok { OnOk result (out.new.items ≡ out.old.items ++ saved_bytes image_version saved.now) }
    ensures err { OnErr result (out.new.items ≡ out.old.items) }
{
    let key = saved.key();
    let reply = saved.reply();
    out.reserve(Version::Three.fixed_size() + key.len() + reply.len())?;
    put_wide_field(out, saved.number());
    put_field(out, saved.kind().number());
    put_field(out, key.len() as u32);
    put_field(out, reply.len() as u32);
    put_field(out, mark(saved.is_not_found()));
    put_field(out, saved.reloads());
    put_wide_field(out, saved.timeout());
    put(out, key);
    put(out, reply);
    Ok(())
}
