// The passwd file with a mode's users, and the run of the mode over that file.
use crate::mode::Mode;
use crate::opening::done;
use crate::reads::Took;
use nsc_base::NoMemory;
use nsc_caller::users_of;
use nsc_outside::HeldFiles;
use std::alloc::Global;
use std::fmt::Write;
use std::sync::Wait;
use std::thread::Threads;
use std::time::Clock;

/// Makes the calls over a file of as many users as they need.
pub fn timed<R: Threads + Wait + Clock + Clone + Drop + Send + Sync>(
    rt: &R,
    alloc: Global,
    mode: Mode,
) -> Result<Took, NoMemory> {
    let text = passwd(alloc, mode.users())?;
    let files = HeldFiles::new(rt.clone()?, alloc, users_of(alloc, text.as_bytes())?)?;
    done(rt, alloc, &mode.conf(), files, mode)
}

// The lines of as many users.
fn passwd(alloc: Global, users: u32) -> Result<String, NoMemory> {
    let mut text = String::new(alloc);
    for number in 0..users {
        let line = format!(in alloc;
            "user{number:07}:x:{number}:{number}:User {number}:/home/user{number:07}:/bin/bash\n"
        )?;
        text.push_str(line.as_str())?;
    }
    Ok(text)
}
