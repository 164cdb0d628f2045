//! Images of a database of users, each of which is checked and then brought back into the cache of a new database. The program reads them from
//! its input, each behind its length in four bytes, the least first, and tells in lines what came of each: the first check that fails; or how
//! many entries were kept and dropped, and those that are there then.
#![tactic(auto)]

mod files;
mod shown;

use nsc_base::u32_at;
use shown::show;
use std::io;
use std::io::Read;
use std::process::ExitCode;

// The bytes of a length.
const LENGTH: usize = 4;

fn main(rt: HostRuntime) -> io::Result<ExitCode> {
    let mut input = Vec::new(rt.alloc());
    rt.stdin().read_to_end(&mut input)?;
    let mut rest = input.as_slice();
    'images: while rest.len() >= LENGTH {
        let length = u32_at(rest, 0) as usize;
        let images = &rest[LENGTH..];
        if images.len() < length {
            break;
        }
        show(&rt, rt.alloc(), &images[..length])?;
        rest = &images[length..];
    }
    // What is left is no image.
    Ok(ExitCode::from(if rest.is_empty() { 0 } else { 1 }))
}
