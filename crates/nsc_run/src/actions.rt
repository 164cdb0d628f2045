// What is done, form by form.
ghost use Rattle.std.specs.Prelude.{◌≡◌, IfErr, IfOk, None, false, option_map};
ghost use Rattle.nsc_outside.specs.StreamAt.{stream_out};
ghost use Rattle.nsc_replay.specs.Streams.{Counted, streams};
ghost use Rattle.nsc_daemon.specs.Ends.{IsBound, daemon_at, sockets_of};
ghost use Rattle.nsc_daemon.specs.Images.{images_at};
ghost use Rattle.nsc_run.specs.Commands.{Course, IsSet, NotSet, config_told, worker_count};
ghost use Rattle.nsc_run.specs.Lists.{has_left, is_left};
ghost use Rattle.nsc_run.specs.Runs.{Asks, DaemonCourse, leaves_files};
ghost use Rattle.nsc_run.specs.Shown.{conf_path_for, service_shown};

use crate::command::replay;
use crate::config::{conf_at, conf_path};
use crate::form::DaemonOptions;
use crate::lists::is_left;
use nsc_control::{AdminAsk, command};
use nsc_daemon::{Terms, daemon};
use nsc_model::{Conf, Exit, FileId};
use nsc_outside::{FileSet, ImageStore, Sink, Source};
use nsc_server::{Scope, Scopes};
use nsc_sockets::{Clock, Helps, Listener};
use std::alloc::Global;
use std::fs::File;
use std::rt::Files;
use std::sync::Wait;
use std::thread::Threads;
use std::time;

/// The replay under the configuration file at this path.
pub fn replay_under<RT: AllocGlobal, R: Source, K: Sink, F: FileSet>(
    rt: &RT,
    config: Option<&str>,
    input: &mut R,
    output: &mut K,
    files: &mut F,
) -> Exit
    ensures run { Course (config_told (F.conf_held files.old) (option_map (λ p. p.now) config.entry)) (F.faults files.old) (F.faults files.new)
        (streams R.Source K.Sink input.old input.new output.old output.new) result }
    ensures counts { Counted result (streams R.Source K.Sink input.old input.new output.old output.new) }
{
    match conf_at(rt.alloc(), config, files) {
        Ok(conf) => replay(rt, &conf, input, output),
        Err(exit) => exit,
    }
}

/// Asks something of the daemon whose sockets stand in this folder.
pub fn ask<K: Sink, N: Listener>(
    alloc: Global,
    asked: AdminAsk,
    run_dir: &str,
    output: &mut K,
    net: &mut N,
) -> Exit
    ensures asks { Asks N.In.Source N.Out.Sink asked (N.peer net.old) (stream_out K.Sink output.old) (stream_out K.Sink output.new) (N.faults net.old) (N.faults net.new) result }
    ensures given { N.given net.new ≡ N.given net.old }
    ensures bound { N.bound net.new ≡ N.bound net.old }
{
    let Ok(path) = format!(in alloc; "{run_dir}/admin") else {
        return Exit::NoMemory;
    };
    match net.connect(path.as_str()) {
        Ok((mut input, mut to_daemon)) => {
            command(alloc, asked, &mut input, &mut to_daemon, output)
        }
        Err(_) => Exit::NetFault,
    }
}

/// Is the daemon, as it is asked for. Its files are from then on those of the folder that is named, if one is.
pub fn serve<
    RT: AllocGlobal
        + Files<File = File>
        + Threads
        + Wait
        + time::Clock
        + Clone
        + Drop
        + Send
        + Sync
        + 'static,
    K: Sink,
    F: FileSet + Send + Drop + 'static,
    C: Clock,
    I: ImageStore,
    N: Listener,
>(
    rt: &RT,
    service: &DaemonOptions<'_>,
    output: &mut K,
    files: &mut F,
    clock: &mut C,
    images: &mut I,
    net: &mut N,
) -> Exit
where
    RT::Dir: Send + 'static,
    N::Departure: 'static,
    N::In: 'static,
    N::Out: 'static,
    N::Helper: Helps<N::In, N::Out> + 'static,
    ensures course { DaemonCourse (F.conf_held files.old (conf_path_for service.now)) (service_shown service.now) (F.held files.old)
        (images_at I.ImageStore images.old) (images_at I.ImageStore images.new)
        (daemon_at K.Sink F.FileSet N.Listener output.old files.old net.old) (daemon_at K.Sink F.FileSet N.Listener output.new files.new net.new) result }
    ensures bound { result ≡ Exit.Ok → IsBound (N.bound net.old) (N.bound net.new) (sockets_of service.now.run_dir.now (option_map (λ p. p.now) service.now.gate)) }
{
    match settings(rt.alloc(), service, files) {
        Ok(conf) => {
            let terms = terms_of(service, &conf);
            daemon(rt, &terms, output, files, clock, images, net)
        }
        Err(exit) => exit,
    }
}

// What a daemon that is asked for so runs under.
fn terms_of<'a, 's: 'a>(service: &DaemonOptions<'s>, conf: &'a Conf) -> Terms<'a>
    ensures conf { result.conf.now ≡ conf.entry.now }
    ensures workers { result.workers ≡ worker_count service.entry.now.workers conf.entry.now }
    ensures run_dir { result.run_dir.now ≡ service.entry.now.run_dir.now }
    ensures gate { option_map (λ p. p.now) result.gate ≡ option_map (λ p. p.now) service.entry.now.gate }
    ensures scopes { result.scopes ≡ service.entry.now.scopes }
{
    Terms {
        conf,
        workers: worker_count(service.workers, conf),
        run_dir: service.run_dir,
        gate: service.gate,
        scopes: service.scopes,
    }
}

// The settings of a daemon, with its files from now on in the folder that it is told.
fn settings<F: FileSet>(
    alloc: Global,
    service: &DaemonOptions<'_>,
    files: &mut F,
) -> Result<Conf, Exit>
    ensures held { option_map (λ p. p.now) service.now.etc ≡ None → leaves_files (service_shown service.now) ≡ false → F.held files.new ≡ F.held files.old }
    ensures ok { IfOk result (λ conf. IsSet (F.conf_held files.old (conf_path_for service.now)) (F.faults files.old) (F.faults files.new) conf) }
    ensures err { IfErr result (λ exit. NotSet (F.conf_held files.old (conf_path_for service.now)) (F.faults files.old) (F.faults files.new) exit) }
{
    let path = conf_path(alloc, service.etc, service.config)?;
    if let Some(folder) = service.etc {
        files.under(alloc, folder)?;
    }
    if service.gate.is_none() {
        leave(service.scopes, files);
    }
    conf_at(alloc, Some(path.as_str()), files)
}

// Has the files of databases that are left looked at no more.
fn leave<F: FileSet>(scopes: Scopes, files: &mut F)
    ensures held { has_left scopes ≡ false → F.held files.new ≡ F.held files.old }
    ensures conf_held { F.conf_held files.new ≡ F.conf_held files.old }
    ensures faults { F.faults files.new ≡ F.faults files.old }
{
    leave_by(scopes.passwd, FileId::Passwd, files);
    leave_by(scopes.passwd, FileId::ExtraPasswd, files);
    leave_by(scopes.group, FileId::Group, files);
    leave_by(scopes.group, FileId::ExtraGroup, files);
    leave_by(scopes.hosts, FileId::Hosts, files);
    leave_by(scopes.services, FileId::Services, files);
}

// Has a file looked at no more if the database is left whose file it is.
fn leave_by<F: FileSet>(scope: Scope, file: FileId, files: &mut F)
    ensures held { is_left scope ≡ false → F.held files.new ≡ F.held files.old }
    ensures conf_held { F.conf_held files.new ≡ F.conf_held files.old }
    ensures faults { F.faults files.new ≡ F.faults files.old }
{
    if is_left(scope) {
        files.leave(file);
    }
}

// How many workers there are: as it is told, or as the settings say, but 1 to 64.
fn worker_count(named: Option<u32>, conf: &Conf) -> u32
    ensures { result ≡ worker_count named conf.now }
{
    match named {
        Some(number) => number,
        None => conf.threads.clamp(1, 64),
    }
}
