// The text that tells the statistics of the four databases.
ghost use Rattle.std.specs.Prelude.{◌≡◌, ◌++◌, IfOk, OnOk};
ghost use Rattle.nsc_server.specs.Stats.{counts_text, database_text, ending_text, heading_text, line, stats_text, words_text};

use itoa::Buffer;
use nsc_base::{Bytes, NoMemory};
use nsc_model::{Db, Stats};
use std::alloc::Global;

/// What the databases passwd, group, hosts and services count, in this order, as text: eleven lines and an empty one for
/// each, with decimal numbers. Fails only for want of memory.
pub fn stat_text(alloc: Global, stats: &[Stats; 4]) -> Result<Bytes, NoMemory>
    ensures { IfOk result (λ text. text ≡ stats_text stats.now) }
{
    let [passwd, group, hosts, services] = stats;
    let mut out = Vec::new(alloc);
    put_database(&mut out, Db::Passwd, passwd)?;
    put_database(&mut out, Db::Group, group)?;
    put_database(&mut out, Db::Hosts, hosts)?;
    put_database(&mut out, Db::Services, services)?;
    Ok(Bytes::from_vec(out))
}

// Puts the lines of a database after the bytes that are there.
fn put_database(out: &mut Vec<u8>, db: Db, stats: &Stats) -> Result<(), NoMemory>
    ensures { OnOk result (out.new.items ≡ out.old.items ++ database_text db stats.now) }
{
    put_heading(out, db, stats.enabled)?;
    put_counts(out, stats)?;
    put_words(out, stats)?;
    put_ending(out, stats)
}

// Puts the lines up to the first count.
fn put_heading(out: &mut Vec<u8>, db: Db, enabled: bool) -> Result<(), NoMemory>
    ensures { OnOk result (out.new.items ≡ out.old.items ++ heading_text db enabled) }
{
    out.extend_from_slice(db.name())?;
    out.extend_from_slice(b" cache:\nenabled ")?;
    let word: &[u8] = if enabled { b"yes\n" } else { b"no\n" };
    Ok(out.extend_from_slice(word)?)
}

// Puts the counts of lookups and entries.
fn put_counts(out: &mut Vec<u8>, stats: &Stats) -> Result<(), NoMemory>
    ensures { OnOk result (out.new.items ≡ out.old.items ++ counts_text stats.now) }
{
    put_line(out, b"hits ", stats.hits)?;
    put_line(out, b"negative hits ", stats.negative_hits)?;
    put_line(out, b"misses ", stats.misses)?;
    put_line(out, b"negative misses ", stats.negative_misses)?;
    put_line(out, b"entries ", stats.entries)
}

// Puts the counts of words.
fn put_words(out: &mut Vec<u8>, stats: &Stats) -> Result<(), NoMemory>
    ensures { OnOk result (out.new.items ≡ out.old.items ++ words_text stats.now) }
{
    let mut buffer = Buffer::new();
    out.extend_from_slice(b"used words ")?;
    out.extend_from_slice(buffer.format(stats.used).as_bytes())?;
    put_line(out, b" of ", stats.arena)
}

// Puts the other counts, and an empty line.
fn put_ending(out: &mut Vec<u8>, stats: &Stats) -> Result<(), NoMemory>
    ensures { OnOk result (out.new.items ≡ out.old.items ++ ending_text stats.now) }
{
    put_line(out, b"invalidations ", stats.invalidations)?;
    put_line(out, b"compactions ", stats.compactions)?;
    put_line(out, b"not added ", stats.addfailed)?;
    Ok(out.extend_from_slice(b"\n")?)
}

// Puts what is counted, the count in decimal, and a newline.
fn put_line(out: &mut Vec<u8>, what: &[u8], count: u64) -> Result<(), NoMemory>
    ensures { OnOk result (out.new.items ≡ out.old.items ++ line what.now count) }
{
    let mut buffer = Buffer::new();
    out.extend_from_slice(what)?;
    out.extend_from_slice(buffer.format(count).as_bytes())?;
    Ok(out.push(b'\n')?)
}
