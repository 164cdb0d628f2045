// The database of a workload, opened over its content under a brand.
ghost use Rattle.std.specs.Prelude.{◌≡◌, ◌≤◌, ◌<◌, IfOk, Some};
ghost use Rattle.nsc_database.specs.Openings.{brought_in};
ghost use Rattle.nsc_model.specs.declared.kind.Db.TheVariants as db;
ghost use Rattle.nsc_model.specs.Settings.{settings_of};
ghost use Rattle.nsc_workload.specs.Runs.{CountsDiffering, replies_from};
ghost use Rattle.nsc_workload.specs.Workload.{files_of, request_count, workload_of};

use crate::assignment::Assignment;
use crate::fixed_files::{FixedFiles, OfContent};
use crate::outcome::Outcome;
use crate::workers::all_replies;
use nsc_base::NoMemory;
use nsc_database::{Opened, Room};
use nsc_index::Indexed;
use nsc_model::{Conf, Content, Db};
use std::alloc::Global;
use std::marker::Brand;
use std::sync::Wait;
use std::thread::Threads;

/// The lines of a workload over the content that a type of file sets names: a database is opened over it. Fails only for want
/// of memory.
pub(crate) fn lines_over<C: OfContent + Send, R: Threads + Wait + Sync>(
    rt: &R,
    alloc: Global,
    content: Content,
    number: u32,
    workers: u32,
) -> Result<Outcome, NoMemory>
    requires number { (0 < number) × (number ≤ 1000) }
    requires workers { (0 < workers) × (workers ≤ 64) }
    requires content { content ≡ C.files }
    requires files { C.files ≡ files_of number }
    ensures text { IfOk result (λ outcome. outcome.text.items ≡ workload_of number) }
    ensures differing { IfOk result (λ outcome. CountsDiffering (replies_from number 0 (request_count number)) outcome.differing) }
{
    let conf = conf();
    let mut files: FixedFiles<C> = FixedFiles::new(alloc, content)?;
    match Opened::open(alloc, &mut files, Indexed, Db::Passwd, &conf, None, 0) {
        Ok(opened) => lines_in::<Brand, C, R>(rt, alloc, &conf, opened, number, workers),
        Err(_) => Err(NoMemory),
    }
}

// The settings by default, but for a larger table of users.
fn conf() -> Conf
    ensures { result.passwd.size ≡ 4096 }
{
    let mut conf = Conf::defaults();
    conf.passwd.size = 4096;
    conf
}

// The lines, once the database of users that was opened enters a room.
fn lines_in<B: Room + Send, C: OfContent + Send, R: Threads + Wait + Sync>(
    rt: &R,
    alloc: Global,
    conf: &Conf,
    opened: Opened<FixedFiles<C>, Indexed>,
    number: u32,
    workers: u32,
) -> Result<Outcome, NoMemory>
    requires number { (0 < number) × (number ≤ 1000) }
    requires workers { (0 < workers) × (workers ≤ 64) }
    requires files { C.files ≡ files_of number }
    requires table { opened.pass.table ≡ B.table opened.db }
    requires conf { conf.now ≡ B.conf }
    requires settings { (opened.settings ≡ settings_of conf.now opened.db) × (opened.reloads ≡ conf.now.reloads) }
    requires users { opened.db ≡ db.Passwd }
    requires held { B.held ≡ Some C.files }
    requires brought { brought_in opened.begun.writer.cache.entries ≡ B.brought opened.db }
    ensures text { IfOk result (λ outcome. outcome.text.items ≡ workload_of number) }
    ensures differing { IfOk result (λ outcome. CountsDiffering (replies_from number 0 (request_count number)) outcome.differing) }
{
    let (database, _) = opened.enter::<B>();
    let assignment = Assignment {
        database: &database,
        number,
        workers,
    };
    let replies = all_replies(rt, alloc, &assignment)?;
    Outcome::of(alloc, &replies)
}
