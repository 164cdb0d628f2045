// Pieces of frames, read from a source: numbers, inputs, files and databases.
ghost use Rattle.std.specs.Prelude.{◌≡◌, ◌≤◌, length, IfOk};
ghost use Rattle.nsc_model.specs.Kinds.{file_numbered};
ghost use Rattle.nsc_model.specs.Files.{file_limit, FileFits};
ghost use Rattle.nsc_model.specs.Frames.{request_at, set_file, bytes_at, chunk, invalidate_at, known_db, file_at, held_at, input_at, input_limit, presence_at, number_at, present_at};
ghost use Rattle.nsc_replay.specs.Reading.{CountsHalt, Reads};

use crate::frame::INPUT_LIMIT;
use crate::halt::Halt;
use nsc_base::{Bytes, u32_at, u64_at};
use nsc_model::{Content, Db, FileId};
use nsc_outside::{Source, fill};
use std::alloc::Global;

// Fills the piece with the next bytes.
fn fill_piece<R: Source>(input: &mut R, piece: &mut [u8]) -> Result<(), Halt>
    ensures reads { Reads (λ _. piece.new) (chunk (length piece.old)) (R.left input.old) (R.left input.new) result }
    ensures counts { CountsHalt (R.faults input.old) (R.faults input.new) result }
{
    if fill(input, piece)? < piece.len() {
        return Err(Halt::Ended);
    }
    Ok(())
}

/// The next byte.
pub fn byte<R: Source>(input: &mut R) -> Result<u8, Halt>
    ensures reads { Reads (λ n. n) (number_at 1) (R.left input.old) (R.left input.new) result }
    ensures counts { CountsHalt (R.faults input.old) (R.faults input.new) result }
{
    let mut bytes = [0; 1];
    fill_piece(input, &mut bytes)?;
    Ok(bytes[0])
}

// The next number of four bytes.
fn word<R: Source>(input: &mut R) -> Result<u32, Halt>
    ensures reads { Reads (λ n. n) (number_at 4) (R.left input.old) (R.left input.new) result }
    ensures counts { CountsHalt (R.faults input.old) (R.faults input.new) result }
{
    let mut bytes = [0; 4];
    fill_piece(input, &mut bytes)?;
    Ok(u32_at(&bytes, 0))
}

/// The next number of eight bytes.
pub fn long<R: Source>(input: &mut R) -> Result<u64, Halt>
    ensures reads { Reads (λ n. n) (number_at 8) (R.left input.old) (R.left input.new) result }
    ensures counts { CountsHalt (R.faults input.old) (R.faults input.new) result }
{
    let mut bytes = [0; 8];
    fill_piece(input, &mut bytes)?;
    Ok(u64_at(&bytes, 0))
}

/// The input of a connection after its length, which is read to the front of `room`.
pub fn request<'a, R: Source>(
    input: &mut R,
    room: &'a mut [u8; INPUT_LIMIT],
) -> Result<&'a [u8], Halt>
    ensures reads { Reads (λ bytes. bytes.now) request_at (R.left input.old) (R.left input.new) result }
    ensures fits { IfOk result (λ bytes. length bytes.now ≤ input_limit) }
    ensures counts { CountsHalt (R.faults input.old) (R.faults input.new) result }
{
    let size = word(input)?;
    input_of(input, room, size)
}

// The input of a connection, of this many bytes.
fn input_of<'a, R: Source>(
    input: &mut R,
    room: &'a mut [u8; INPUT_LIMIT],
    size: u32,
) -> Result<&'a [u8], Halt>
    ensures reads { Reads (λ bytes. bytes.now) (input_at size) (R.left input.old) (R.left input.new) result }
    ensures fits { IfOk result (λ bytes. length bytes.now ≤ input_limit) }
    ensures counts { CountsHalt (R.faults input.old) (R.faults input.new) result }
{
    let size = size as usize;
    if size > INPUT_LIMIT {
        return Err(Halt::NoFrame);
    }
    let piece = &mut room[..size];
    fill_piece(input, piece)?;
    Ok(piece)
}

// The bytes of a file after their length.
fn present<R: Source>(alloc: Global, input: &mut R) -> Result<Bytes, Halt>
    ensures reads { Reads (λ bytes. bytes) present_at (R.left input.old) (R.left input.new) result }
    ensures fits { IfOk result (λ bytes. length bytes ≤ file_limit) }
    ensures counts { CountsHalt (R.faults input.old) (R.faults input.new) result }
{
    let size = word(input)?;
    held(alloc, input, size)
}

// The bytes of a file, of this many bytes. Their room is taken once.
fn held<R: Source>(alloc: Global, input: &mut R, size: u32) -> Result<Bytes, Halt>
    ensures reads { Reads (λ bytes. bytes) (held_at size) (R.left input.old) (R.left input.new) result }
    ensures fits { IfOk result (λ bytes. length bytes ≤ file_limit) }
    ensures counts { CountsHalt (R.faults input.old) (R.faults input.new) result }
{
    let size = size as usize;
    if size > Content::LIMIT {
        return Err(Halt::LongFile {
            length: size as u64,
        });
    }
    if size == 0 {
        return Ok(Bytes::from_vec(Vec::new(alloc)));
    }
    let mut bytes = vec![in alloc; 0; size]?;
    fill_piece(input, &mut bytes)?;
    Ok(Bytes::from_vec(bytes))
}

// What a file becomes, by the byte that says whether it is present.
fn by_presence<R: Source>(alloc: Global, input: &mut R, presence: u8) -> Result<Option<Bytes>, Halt>
    ensures reads { Reads (λ bytes. bytes) (presence_at presence) (R.left input.old) (R.left input.new) result }
    ensures fits { IfOk result FileFits }
    ensures counts { CountsHalt (R.faults input.old) (R.faults input.new) result }
{
    match presence {
        0 => Ok(None),
        1 => Ok(Some(present(alloc, input)?)),
        _ => Err(Halt::NoFrame),
    }
}

// What a file becomes.
fn becomes<R: Source>(alloc: Global, input: &mut R) -> Result<Option<Bytes>, Halt>
    ensures reads { Reads (λ bytes. bytes) bytes_at (R.left input.old) (R.left input.new) result }
    ensures fits { IfOk result FileFits }
    ensures counts { CountsHalt (R.faults input.old) (R.faults input.new) result }
{
    let presence = byte(input)?;
    by_presence(alloc, input, presence)
}

// The file of this number, and what it becomes.
fn numbered_file<R: Source>(
    alloc: Global,
    input: &mut R,
    number: u8,
) -> Result<(FileId, Option<Bytes>), Halt>
    ensures reads { Reads (λ p. p) (set_file (file_numbered number)) (R.left input.old) (R.left input.new) result }
    ensures fits { IfOk result (λ p. FileFits p.1) }
    ensures counts { CountsHalt (R.faults input.old) (R.faults input.new) result }
{
    match FileId::numbered(number) {
        Some(file) => Ok((file, becomes(alloc, input)?)),
        None => Err(Halt::NoFrame),
    }
}

/// A file, and what it becomes.
pub fn file<R: Source>(alloc: Global, input: &mut R) -> Result<(FileId, Option<Bytes>), Halt>
    ensures reads { Reads (λ p. p) file_at (R.left input.old) (R.left input.new) result }
    ensures fits { IfOk result (λ p. FileFits p.1) }
    ensures counts { CountsHalt (R.faults input.old) (R.faults input.new) result }
{
    let number = byte(input)?;
    numbered_file(alloc, input, number)
}

/// A database, by its number.
pub fn database<R: Source>(input: &mut R) -> Result<Db, Halt>
    ensures reads { Reads (λ db. db) invalidate_at (R.left input.old) (R.left input.new) result }
    ensures counts { CountsHalt (R.faults input.old) (R.faults input.new) result }
{
    let number = byte(input)?;
    match Db::numbered(number) {
        Some(db) => Ok(db),
        None => Err(Halt::NoFrame),
    }
}
