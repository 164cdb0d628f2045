//! nscd: the name service cache daemon. The program takes its words and what the system offers, runs the command, and ends with
//! its status.
#![tactic(auto)]

use nsc_base::NoMemory;
use nsc_lines::Lines;
use nsc_outside::{HostFiles, HostImages, StdSink, StdSource};
use nsc_run::{Exit, run};
use nsc_sockets::{HostClock, UnixListener};
use std::alloc::AllocError;
use std::fs::File;
use std::io::{BufReader, Eprint, ErrorKind};
use std::net::Net;
use std::process::ExitCode;
use std::rt::Files;
use std::sync::Wait;
use std::thread::Threads;
use std::time::{Clock, Duration};
use std::{env, io, thread};

// How long an end waits for lines that are not written yet, in milliseconds.
const LAST_LINES: u64 = 1000;

fn main(rt: HostRuntime) -> ExitCode {
    let Ok(lines) = lines(&rt) else {
        // If standard error fails there is nobody left to tell; the status still says why.
        let _ = eprintln!(&rt; "{}", Exit::NoMemory);
        return ExitCode::from(Exit::NoMemory.status());
    };
    let reader = BufReader::new(rt.alloc(), rt.reader());
    let exit = match (
        words(&rt),
        reader,
        files(&rt, &lines),
        images(&rt, &lines),
        sockets(&rt, &lines),
    ) {
        (Ok(words), Ok(reader), Ok(mut files), Ok(mut images), Ok(mut net)) => {
            let mut input = StdSource::new(reader);
            let mut output = StdSink::new(io::writer(&rt));
            let mut clock = HostClock::new(&rt);
            let exit = run(
                &rt,
                &words,
                &mut input,
                &mut output,
                &mut files,
                &mut clock,
                &mut images,
                &mut net,
            );
            if let (Exit::BadConf { .. }, Some(path)) = (&exit, files.conf_path()) {
                lines.tell(format_args!("nscd: {path}: the configuration is refused"));
            }
            exit
        }
        (Err(error), ..) => exit_of(&error),
        _ => Exit::NoMemory,
    };
    if exit != Exit::Ok {
        lines.tell(&exit);
    }
    lines.finish(Duration::from_millis(LAST_LINES));
    ExitCode::from(exit.status())
}

// The lines for standard error, and the thread that writes them.
fn lines<R: AllocGlobal + Threads + Wait + Eprint + Clone + Drop + Send + 'static>(
    rt: &R,
) -> Result<Lines<R>, NoMemory> {
    let lines = Lines::new(rt.alloc(), rt.clone()?)?;
    lines.start()?;
    Ok(lines)
}

// The system's files. The daemon's threads read them too, so their set owns its runtime.
fn files<R: AllocGlobal + Files + Clone + Drop>(
    rt: &R,
    lines: &Lines<R>,
) -> Result<HostFiles<R>, NoMemory> {
    HostFiles::new(rt.alloc(), rt.clone()?, lines.share()?)
}

// The images in a folder of the system.
fn images<R: AllocGlobal + Files + Clone + Drop>(
    rt: &R,
    lines: &Lines<R>,
) -> Result<HostImages<R>, NoMemory> {
    Ok(HostImages::new(rt.alloc(), rt.clone()?, lines.share()?))
}

// The system's sockets.
fn sockets<R: AllocGlobal + Files<File = File> + Net + Threads + Wait + Clock + Clone + Drop>(
    rt: &R,
    lines: &Lines<R>,
) -> Result<UnixListener<R>, NoMemory> {
    Ok(UnixListener::new(rt.alloc(), rt.clone()?, lines.share()?, processors(rt)))
}

// How many processors there are, and 1 where the system does not tell.
fn processors(rt: &impl Threads) -> usize {
    match thread::available_parallelism(rt) {
        Ok(number) => number.get(),
        Err(_) => 1,
    }
}

// The command words without the program's own name.
fn words(rt: &HostRuntime) -> io::Result<Vec<String>> {
    let mut words = Vec::new(rt.alloc());
    for word in env::args(rt)?.skip(1) {
        words.push(word).map_err(AllocError::from)?;
    }
    Ok(words)
}

// A word that is not UTF-8 is in no command.
fn exit_of(error: &io::Error) -> Exit {
    if error.kind() == ErrorKind::OutOfMemory {
        Exit::NoMemory
    } else {
        Exit::Usage
    }
}
