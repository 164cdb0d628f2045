// What a trial came to, in lines.

use nsc_base::NoMemory;
use nsc_model::Db;
use nsc_outside::MemImages;
use nsc_run::Exit;
use nsc_sockets::SinkReader;
use std::alloc::Global;
use std::io;
use std::io::Print;

/// Prints how the program ended and what it wrote.
pub fn show<R: Print>(rt: &R, name: &str, exit: Exit, written: &[u8]) -> io::Result<()> {
    println!(rt; "{name}: status {}", exit.status())?;
    match str::from_utf8(written) {
        Ok(text) => print!(rt; "{text}"),
        Err(_) => println!(rt; "no text"),
    }
}

/// Prints what each peer was sent.
pub fn show_sent<R: Print>(rt: &R, alloc: Global, readers: &[SinkReader]) -> io::Result<()> {
    for reader in readers {
        match sent(alloc, reader) {
            Ok(text) => println!(rt; "  {}", text.as_str())?,
            Err(_) => println!(rt; "  no memory")?,
        }
    }
    Ok(())
}

/// Prints the images that are there.
pub fn show_images<R: Print>(rt: &R, alloc: Global, images: &MemImages) -> io::Result<()> {
    for (db, name) in [
        (Db::Passwd, "passwd"),
        (Db::Group, "group"),
        (Db::Hosts, "hosts"),
        (Db::Services, "services"),
    ] {
        if let Some(image) = images.image(db) {
            match shown(alloc, image) {
                Ok(text) => println!(rt; "  {name}: {}", text.as_str())?,
                Err(_) => println!(rt; "  no memory")?,
            }
        }
    }
    Ok(())
}

// How many bytes a peer was sent, and which.
fn sent(alloc: Global, reader: &SinkReader) -> Result<String, NoMemory> {
    let bytes = reader.bytes(alloc)?;
    shown(alloc, bytes.as_slice())
}

// How many bytes these are, and which.
fn shown(alloc: Global, bytes: &[u8]) -> Result<String, NoMemory> {
    let digits = hex::encode(alloc, bytes)?;
    if digits.is_empty() {
        return Ok(String::from_str(alloc, "nothing")?);
    }
    Ok(format!(in alloc; "{} bytes {}", bytes.len(), digits.as_str())?)
}
