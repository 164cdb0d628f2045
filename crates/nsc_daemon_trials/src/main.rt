//! Trials of the whole program as a daemon, over connections, files, moments and images in memory. Each trial prints how the program
//! ended, what it wrote, what every peer was sent, and the images that are there then.
#![tactic(auto)]

mod files;
mod plans;
mod requests;
mod showing;
mod trial;

use files::files;
use nsc_base::NoMemory;
use nsc_outside::{MemImages, MemSink, MemSource};
use nsc_run::run;
use nsc_sockets::{MemClock, MemListener};
use plans::{Images, PLANS};
use showing::{show, show_images, show_sent};
use std::alloc::Global;
use std::io;
use trial::Trial;

// How many bytes the program may write, and an image may have.
const ROOM: usize = 4096;

fn main(rt: HostRuntime) -> io::Result<()> {
    let alloc = rt.alloc();
    let mut store = MemImages::new(alloc, ROOM).map_err(wanting)?;
    for plan in &PLANS {
        let Trial {
            changed,
            hold,
            arrivals,
            peers,
            readers,
        } = Trial::new(alloc, plan).map_err(wanting)?;
        if plan.images != Images::Left {
            store = images_for(alloc, plan.images).map_err(wanting)?;
        }
        let words = owned(alloc, plan.words).map_err(wanting)?;
        let mut output = MemSink::new(alloc, ROOM).map_err(wanting)?;
        let system: Result<_, _> = rt.clone();
        let exit = run(
            &rt,
            words.as_slice(),
            &mut MemSource::new(Vec::new(alloc)),
            &mut output,
            &mut files(system?, alloc, changed, hold, plan.conf).map_err(wanting)?,
            &mut MemClock::new(plan.start, plan.seconds),
            &mut store,
            &mut MemListener::new(alloc, arrivals, peers).map_err(wanting)?,
        );
        show(&rt, plan.name, exit, output.taken())?;
        show_sent(&rt, alloc, readers.as_slice())?;
        show_images(&rt, alloc, &store)?;
    }
    Ok(())
}

// A store of no images, from which none can be got and into which none can be put if that is to fail.
fn images_for(alloc: Global, images: Images) -> Result<MemImages, NoMemory> {
    let store = MemImages::new(alloc, ROOM)?;
    if images == Images::Failing {
        let gets = Vec::from_slice(alloc, &[1, 2, 3, 4])?;
        let puts = Vec::from_slice(alloc, &[1, 2, 3, 4])?;
        return Ok(store.failing_gets(gets).failing_puts(puts));
    }
    Ok(store)
}

// The words as the program has them.
fn owned(alloc: Global, words: &[&str]) -> Result<Vec<String>, NoMemory> {
    let mut owned = Vec::with_capacity(alloc, words.len())?;
    for word in words {
        owned.push(String::from_str(alloc, word)?)?;
    }
    Ok(owned)
}

// Want of memory, as an error of output.
fn wanting(_e: NoMemory) -> io::Error {
    io::Error::from(io::ErrorKind::OutOfMemory)
}
