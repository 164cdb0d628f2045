//! Lists of texts in a reply: a field for the length of each, and the texts.

ghost use Rattle.std.specs.Prelude.{◌≡◌, ◌+◌, ◌*◌, ◌≤◌, ◌++◌, length, flat_map, OnOk};
ghost use Rattle.nsc_model.specs.Answer.{reply_limit};
ghost use Rattle.nsc_model.specs.Wire.{text, text_len};

use crate::reply::FIELD;
use byteorder::{ByteOrder, LittleEndian};
use nsc_base::{NoMemory, Texts};

// How many bytes texts take, each a field for its length and its bytes with the zero byte.
pub(crate) fn texts_size(texts: &Texts) -> usize
    requires { length (flat_map text_len texts.now) + length (flat_map text texts.now) ≤ reply_limit }
    ensures { result ≡ length (flat_map text_len texts.now) + length (flat_map text texts.now) }
{
    FIELD * texts.len() + texts.run().len()
}

// How many texts there are.
pub(crate) fn texts_count(texts: &Texts) -> u32
    requires { length (flat_map text_len texts.now) + length (flat_map text texts.now) ≤ reply_limit }
    ensures { result ≡ length texts.now }
{
    texts.len() as u32
}

// Puts the length of each text after the bytes that are there.
pub(crate) fn put_lengths(out: &mut Vec<u8>, texts: &Texts) -> Result<(), NoMemory>
    requires { length (flat_map text texts.now) ≤ reply_limit }
    ensures { OnOk result (out.new.items ≡ out.old.items ++ flat_map text_len texts.now) }
{
    let from = out.len();
    out.resize(from + FIELD * texts.len(), 0)?;
    write_lengths(&mut out.as_mut_slice()[from..], texts);
    Ok(())
}

// Writes the length of each text into fields, of which there are as many.
fn write_lengths(fields: &mut [u8], texts: &Texts)
    requires within { length (flat_map text texts.now) ≤ reply_limit }
    requires size { length fields.old ≡ 4 * length texts.now }
    ensures { fields.new ≡ flat_map text_len texts.now }
{
    for at in 0..texts.len() {
        let size = texts.get(at).len() + 1;
        LittleEndian::write_u32(&mut fields[FIELD * at..], size as u32);
    }
}

// Puts texts after the bytes that are there, each with its zero byte.
pub(crate) fn put_texts(out: &mut Vec<u8>, texts: &Texts) -> Result<(), NoMemory>
    ensures { OnOk result (out.new.items ≡ out.old.items ++ flat_map text texts.now) }
{
    Ok(out.extend_from_slice(texts.run())?)
}
