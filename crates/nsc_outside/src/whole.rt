// Filling of a buffer from a source, and writing of all bytes to a sink.
ghost use Rattle.std.specs.Prelude.{◌≡◌, ◌<◌, ◌≤◌, length, take, IfOk, OnOk, OnErr};
ghost use Rattle.nsc_outside.specs.Stream.{Moves, MovesFewer, IsDrained, Grows, GrowsByFront};
ghost use Rattle.nsc_model.specs.Reads.{Rose};

use crate::stream::{Failed, Sink, Source};

/// Reads until `buf` is full or the input has ended, and gives the number of bytes that came. The rest of `buf`
/// may hold anything. On `Failed` the bytes that came before are lost: fewer than `buf` has room for.
pub fn fill<R: Source>(input: &mut R, buf: &mut [u8]) -> Result<usize, Failed>
    ensures count { IfOk result (λ n. n ≤ length buf.old) }
    ensures moved { IfOk result (λ n. Moves (R.left input.old) (R.left input.new) (take n buf.new)) }
    ensures end { IfOk result (λ n. n < length buf.old → IsDrained (R.left input.new)) }
    ensures calm { OnOk result (R.faults input.new ≡ R.faults input.old) }

    ensures fewer { OnErr result (MovesFewer (R.left input.old) (R.left input.new) (length buf.old)) }
    ensures failed { OnErr result (Rose (R.faults input.old) (R.faults input.new)) }
{
    let mut count = 0;
    while count < buf.len() {
        let more = input.read(&mut buf[count..])?;
        if more == 0 {
            return Ok(count);
        }
        count += more;
    }
    Ok(count)
}

/// Writes all of `bytes`. On `Failed` some bytes at their front may be out, and no others.
pub fn write_all<K: Sink>(output: &mut K, bytes: &[u8]) -> Result<(), Failed>
    ensures grown { OnOk result (Grows (K.taken output.old) (K.taken output.new) bytes.now) }
    ensures calm { OnOk result (K.faults output.new ≡ K.faults output.old) }

    ensures front { OnErr result (GrowsByFront (K.taken output.old) (K.taken output.new) bytes.now) }
    ensures failed { OnErr result (Rose (K.faults output.old) (K.faults output.new)) }
{
    let mut done = 0;
    while done < bytes.len() {
        done += output.write(&bytes[done..])?;
    }
    Ok(())
}
