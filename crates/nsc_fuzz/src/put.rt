// Numbers and texts put behind bytes, and what is told handed over to C.
ghost use Rattle.std.specs.Prelude.{◌≡◌, ◌++◌, IfErr, IfOk, OnOk};
ghost use Rattle.nsc_model.specs.Kinds.{type_number};
ghost use Rattle.nsc_fuzz.specs.Told.{IsNotTold, IsTold, flag_told, number_told, numbers_told, text_told, texts_told};

use byteorder::{ByteOrder, LittleEndian};
use nsc_base::{NoMemory, Texts};
use nsc_model::Kind;

// Puts a number, as eight bytes.
#[tactic(auto, unfolding(crate::specs::Told::number_told))]
pub(crate) fn put_number(out: &mut Vec<u8>, number: u64) -> Result<(), NoMemory>
    ensures { OnOk result (out.new.items ≡ out.old.items ++ number_told number) }
{
    let mut bytes = [0; 8];
    LittleEndian::write_u64(&mut bytes, number);
    Ok(out.extend_from_slice(&bytes)?)
}

// Puts the number of a kind of lookup.
pub(crate) fn put_kind(out: &mut Vec<u8>, kind: Kind) -> Result<(), NoMemory>
    ensures { OnOk result (out.new.items ≡ out.old.items ++ number_told (type_number kind)) }
{
    put_number(out, u64::from(kind.number()))
}

// Puts a flag, as the number 0 or 1.
#[tactic(auto, unfolding(crate::specs::Told::flag_told))]
pub(crate) fn put_flag(out: &mut Vec<u8>, flag: bool) -> Result<(), NoMemory>
    ensures { OnOk result (out.new.items ≡ out.old.items ++ flag_told flag) }
{
    if flag {
        put_number(out, 1)
    } else {
        put_number(out, 0)
    }
}

// Puts a text behind its length.
#[tactic(auto, unfolding(crate::specs::Told::text_told))]
pub(crate) fn put_text(out: &mut Vec<u8>, bytes: &[u8]) -> Result<(), NoMemory>
    ensures { OnOk result (out.new.items ≡ out.old.items ++ text_told bytes.now) }
{
    put_number(out, bytes.len() as u64)?;
    Ok(out.extend_from_slice(bytes)?)
}

// Puts texts behind their count.
pub(crate) fn put_texts(out: &mut Vec<u8>, texts: &Texts) -> Result<(), NoMemory>
    ensures { OnOk result (out.new.items ≡ out.old.items ++ texts_told texts.now) }
{
    put_number(out, texts.len() as u64)?;
    for at in 0..texts.len() {
        put_text(out, texts.get(at))?;
    }
    Ok(())
}

// Puts numbers behind their count.
pub(crate) fn put_numbers(out: &mut Vec<u8>, numbers: &[u32]) -> Result<(), NoMemory>
    ensures { OnOk result (out.new.items ≡ out.old.items ++ numbers_told numbers.now) }
{
    put_number(out, numbers.len() as u64)?;
    for number in numbers {
        put_number(out, u64::from(*number))?;
    }
    Ok(())
}

// Copies what is told into the room. Returns how many bytes it is; 0 if there is none, or if the room is too small.
pub(crate) fn hand_over(told: Result<Vec<u8>, NoMemory>, room: &mut [u8]) -> usize
    ensures ok { IfOk told (λ bytes. IsTold bytes.items room.old room.new result) }
    ensures err { IfErr told (λ _. IsNotTold room.old room.new result) }
{
    let Ok(bytes) = told else {
        return 0;
    };
    let size = bytes.len();
    if size > room.len() {
        return 0;
    }
    room[..size].copy_from_slice(bytes.as_slice());
    size
}
