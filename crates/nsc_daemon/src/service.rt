// `daemon`: the daemon's run, from the opened databases to the images at its end.
ghost use Rattle.std.specs.Prelude.{◌≡◌, ℕ, OnErr, OnOk, option_map};
ghost use Rattle.nsc_database.specs.Openings.{brought_in};
ghost use Rattle.nsc_model.specs.Exits.{IsExitOf, Serving};
ghost use Rattle.nsc_model.specs.Reads.{Rose};
ghost use Rattle.nsc_model.specs.Settings.{settings_of};
ghost use Rattle.nsc_model.specs.Sizes.{SizesFit};
ghost use Rattle.nsc_model.specs.declared.kind.Db.TheVariants as db_is;
ghost use Rattle.nsc_server.specs.Passes.{AreNamed, ArePasses};
ghost use Rattle.nsc_daemon.specs.Images.{PutsImages, images_at};
ghost use Rattle.nsc_daemon.specs.Ends.{EndsSo, IsBound, StopsSo, TellsHeldLength, daemon_at, daemon_of, sockets_at, sockets_of};
ghost use Rattle.nsc_daemon.specs.Openings.{AreTables};

use crate::acceptor::{Acceptor, accept_all};
use crate::images::save_all;
use crate::intake::Waitings;
use crate::latch::Latch;
use crate::means::{Manner, Means, prepare};
use crate::opening::{Openings, opening_exit};
use crate::terms::Terms;
use crate::threads::{hand_over, start_helpers, start_workers};
use nsc_database::Room;
use nsc_model::{Databases, Exit, Store};
use nsc_outside::{Failed, FileSet, ImageStore, Sink, write_all};
use nsc_sockets::{Clock, Helps, Listener, Role};
use std::fs::File;
use std::marker::Brand;
use std::rt::Files;
use std::sync::{Arc, Wait};
use std::thread::Threads;
use std::time;

// How long an end waits for requests that have come, in seconds.
const LAST_REQUESTS: u64 = 2;

/// Runs the daemon: opens the four databases over these files, with the images in the folder of those that are cached and persistent,
/// binds `socket` and `admin` in the folder, and the gate where there is to be one, tells the output that it is ready, and serves
/// connections and ticks until one on the admin socket tells it to end. Once its workers are done, or two seconds have passed, it puts an
/// image of each persistent database. A store of images that fails changes neither the service nor the exit.
///
/// At `Ok` these sockets were bound, and no others, the line was written, the newest connection that the listener gave asked for the end,
/// and of each persistent database an image was put, or that failed. `SourceFault` and `TooLong` come only where a file failed at the
/// start, and the length of one that is too long is as the files are told; `NetFault` comes only where a call on the listener failed, and
/// `WriteFault` where one on the output did, which may have taken a front of the line. At `NoMemory` nothing was written; or the line
/// was, and an image could not be made.
pub fn daemon<
    RT: AllocGlobal
        + Files<File = File>
        + Threads
        + Wait
        + time::Clock
        + Clone
        + Drop
        + Send
        + Sync
        + 'static,
    K: Sink,
    F: FileSet + Send + Drop + 'static,
    C: Clock,
    I: ImageStore,
    N: Listener,
>(
    rt: &RT,
    terms: &Terms<'_>,
    output: &mut K,
    files: &mut F,
    clock: &mut C,
    images: &mut I,
    net: &mut N,
) -> Exit
where
    RT::Dir: Send + 'static,
    N::Departure: 'static,
    N::In: 'static,
    N::Out: 'static,
    N::Helper: Helps<N::In, N::Out> + 'static,
    requires { SizesFit terms.now.conf.now }
    ensures exits { IsExitOf Serving result }
    ensures ends { EndsSo result (daemon_at K.Sink F.FileSet N.Listener output.old files.old net.old) (daemon_at K.Sink F.FileSet N.Listener output.new files.new net.new) }
    ensures length { TellsHeldLength result (F.held files.old) }
    ensures images { result ≡ Exit.Ok → PutsImages terms.now.conf.now (images_at I.ImageStore images.old) (images_at I.ImageStore images.new) }
    ensures bound { result ≡ Exit.Ok → IsBound (N.bound net.old) (N.bound net.new) (sockets_of terms.now.run_dir.now (option_map (λ p. p.now) terms.now.gate)) }
{
    match images.under(terms.run_dir) {
        Ok(()) => {}
        Err(_) => return Exit::NoMemory,
    }
    let now = clock.now();
    match Openings::open(rt.alloc(), files, terms.conf, images, now) {
        Ok(openings) => {
            in_room::<Brand, RT, K, F, C, I, N>(rt, terms, openings, output, clock, images, net)
        }
        Err(fault) => opening_exit(fault),
    }
}

// Runs the daemon over its opened databases in a room.
fn in_room<
    B: Room + Send + Sync + 'static,
    RT: AllocGlobal
        + Files<File = File>
        + Threads
        + Wait
        + time::Clock
        + Clone
        + Drop
        + Send
        + Sync
        + 'static,
    K: Sink,
    F: FileSet + Send + Drop + 'static,
    C: Clock,
    I: ImageStore,
    N: Listener,
>(
    rt: &RT,
    terms: &Terms<'_>,
    openings: Openings<F>,
    output: &mut K,
    clock: &mut C,
    images: &mut I,
    net: &mut N,
) -> Exit
where
    RT::Dir: Send + 'static,
    N::Departure: 'static,
    N::In: 'static,
    N::Out: 'static,
    N::Helper: Helps<N::In, N::Out> + 'static,
    requires names { (openings.passwd.db ≡ db_is.Passwd) × (openings.group.db ≡ db_is.Group) × (openings.hosts.db ≡ db_is.Hosts) × (openings.services.db ≡ db_is.Services) }
    requires tables { AreTables B.table openings.passwd.pass.table openings.group.pass.table openings.hosts.pass.table openings.services.pass.table }
    requires passwd { (openings.passwd.settings ≡ settings_of B.conf db_is.Passwd) × (openings.passwd.reloads ≡ B.conf.reloads) × (F.held openings.passwd.files ≡ B.held) }
    requires group { (openings.group.settings ≡ settings_of B.conf db_is.Group) × (openings.group.reloads ≡ B.conf.reloads) × (F.held openings.group.files ≡ B.held) }
    requires hosts { (openings.hosts.settings ≡ settings_of B.conf db_is.Hosts) × (openings.hosts.reloads ≡ B.conf.reloads) × (F.held openings.hosts.files ≡ B.held) }
    requires services { (openings.services.settings ≡ settings_of B.conf db_is.Services) × (openings.services.reloads ≡ B.conf.reloads) × (F.held openings.services.files ≡ B.held) }
    requires passwd_brought { brought_in openings.passwd.begun.writer.cache.entries ≡ B.brought db_is.Passwd }
    requires group_brought { brought_in openings.group.begun.writer.cache.entries ≡ B.brought db_is.Group }
    requires hosts_brought { brought_in openings.hosts.begun.writer.cache.entries ≡ B.brought db_is.Hosts }
    requires services_brought { brought_in openings.services.begun.writer.cache.entries ≡ B.brought db_is.Services }
    ensures exits { IsExitOf Serving result }
    ensures ends { (faults : ℕ) → EndsSo result (daemon_of K.Sink N.Listener output.old net.old faults)
        (daemon_of K.Sink N.Listener output.new net.new faults) }
    ensures images { result ≡ Exit.Ok → PutsImages terms.now.conf.now (images_at I.ImageStore images.old) (images_at I.ImageStore images.new) }
    ensures bound { result ≡ Exit.Ok → IsBound (N.bound net.old) (N.bound net.new) (sockets_of terms.now.run_dir.now (option_map (λ p. p.now) terms.now.gate)) }
{
    let (stores, passes) = openings.enter::<B>();
    serve(rt, terms, stores, passes, output, clock, images, net)
}

// Binds the sockets, tells that the daemon is ready, and serves. Afterwards no socket is left, also where the start failed.
fn serve<
    RT: AllocGlobal
        + Files<File = File>
        + Threads
        + Wait
        + time::Clock
        + Clone
        + Drop
        + Send
        + Sync
        + 'static,
    S: Store + Drop + Send + Sync + 'static,
    K: Sink,
    C: Clock,
    I: ImageStore,
    N: Listener,
>(
    rt: &RT,
    terms: &Terms<'_>,
    stores: Databases<S>,
    passes: Databases<S::Pass>,
    output: &mut K,
    clock: &mut C,
    images: &mut I,
    net: &mut N,
) -> Exit
where
    RT::Dir: Send + 'static,
    N::Departure: 'static,
    S::Pass: Send + 'static,
    N::In: 'static,
    N::Out: 'static,
    N::Helper: Helps<N::In, N::Out> + 'static,
    requires named { AreNamed S.Store stores }
    requires passes { ArePasses S.Store stores passes }
    ensures exits { IsExitOf Serving result }
    ensures ends { (faults : ℕ) → EndsSo result (daemon_of K.Sink N.Listener output.old net.old faults)
        (daemon_of K.Sink N.Listener output.new net.new faults) }
    ensures images { result ≡ Exit.Ok → PutsImages terms.now.conf.now (images_at I.ImageStore images.old) (images_at I.ImageStore images.new) }
    ensures bound { result ≡ Exit.Ok → IsBound (N.bound net.old) (N.bound net.new) (sockets_of terms.now.run_dir.now (option_map (λ p. p.now) terms.now.gate)) }
{
    let manner = match prepare(rt, terms.workers, net) {
        Ok(manner) => manner,
        Err(_) => return Exit::NoMemory,
    };
    let exit = serve_in(
        rt, terms, manner, stores, passes, output, clock, images, net,
    );
    net.close();
    exit
}

// Serves in a manner.
fn serve_in<
    RT: AllocGlobal + Threads + Wait + time::Clock + Clone + Drop + Send + Sync + 'static,
    S: Store + Drop + Send + Sync + 'static,
    K: Sink,
    C: Clock,
    I: ImageStore,
    N: Listener,
>(
    rt: &RT,
    terms: &Terms<'_>,
    manner: Manner,
    stores: Databases<S>,
    passes: Databases<S::Pass>,
    output: &mut K,
    clock: &mut C,
    images: &mut I,
    net: &mut N,
) -> Exit
where
    S::Pass: Send + 'static,
    N::In: 'static,
    N::Out: 'static,
    N::Helper: Helps<N::In, N::Out> + 'static,
    requires named { AreNamed S.Store stores }
    requires passes { ArePasses S.Store stores passes }
    ensures exits { IsExitOf Serving result }
    ensures ends { (faults : ℕ) → EndsSo result (daemon_of K.Sink N.Listener output.old net.old faults)
        (daemon_of K.Sink N.Listener output.new net.new faults) }
    ensures images { result ≡ Exit.Ok → PutsImages terms.now.conf.now (images_at I.ImageStore images.old) (images_at I.ImageStore images.new) }
    ensures bound { result ≡ Exit.Ok → IsBound (N.bound net.old) (N.bound net.new) (sockets_of terms.now.run_dir.now (option_map (λ p. p.now) terms.now.gate)) }
{
    let means = match Means::new(rt, terms, manner, stores) {
        Ok(means) => means,
        Err(_) => return Exit::NoMemory,
    };
    let Means {
        stores,
        buffer,
        fast,
        ticker,
        list,
        latch,
        gate,
        moment,
        plain,
        admin,
    } = means;
    match bind(net, plain.as_str(), admin.as_str(), terms.gate) {
        Ok(()) => {}
        Err(_) => return Exit::NetFault,
    }
    match write_all(output, b"nscd: ready\n") {
        Ok(()) => {}
        Err(_) => return Exit::WriteFault,
    }
    let ticked = clock.now();
    moment.set(ticked);
    let mut acceptor = Acceptor {
        stores,
        scopes: terms.scopes,
        passes,
        buffer,
        gate,
        fast,
        ticker,
        ticked,
        waitings: None,
        tallies: Vec::new(rt.alloc()),
        moment,
    };
    let exit = run(rt, terms.workers, &mut acceptor, &list, &latch, clock, net);
    let Acceptor {
        stores,
        mut passes,
        ..
    } = acceptor;
    match save_all(rt, &stores, &mut passes, terms.conf, images) {
        Ok(()) => exit,
        Err(_) => Exit::NoMemory,
    }
}

// Binds the two sockets, and the gate where there is one.
fn bind<N: Listener>(
    net: &mut N,
    plain: &str,
    admin: &str,
    gate: Option<&str>,
) -> Result<(), Failed>
    ensures given { N.given net.new ≡ N.given net.old }
    ensures bound { OnOk result (IsBound (N.bound net.old) (N.bound net.new) (sockets_at plain.now admin.now (option_map (λ p. p.now) gate.entry))) }
    ensures calm { OnOk result (N.faults net.new ≡ N.faults net.old) }
    ensures failed { OnErr result (Rose (N.faults net.old) (N.faults net.new)) }
{
    net.bind(Role::Plain, plain)?;
    net.bind(Role::Admin, admin)?;
    match gate {
        Some(path) => net.bind(Role::Gate, path),
        None => Ok(()),
    }
}

// Starts the workers and helpers, accepts, and waits for the workers' end. One that a file holds is left, since the end of the process ends it.
fn run<
    RT: AllocGlobal + Threads + Wait + time::Clock + Clone + Drop + Send + Sync + 'static,
    S: Store + Drop + Send + Sync + 'static,
    C: Clock,
    N: Listener,
>(
    rt: &RT,
    workers: u32,
    acceptor: &mut Acceptor<S, N::In, N::Out>,
    list: &Waitings<N::In, N::Out>,
    latch: &Arc<Latch>,
    clock: &mut C,
    net: &mut N,
) -> Exit
where
    S::Pass: Send + 'static,
    N::In: 'static,
    N::Out: 'static,
    N::Helper: Helps<N::In, N::Out> + 'static,
    ensures exits { IsExitOf Serving result }
    ensures stops { StopsSo result (N.given net.old) (N.given net.new) (N.faults net.old) (N.faults net.new) }
    ensures bound { N.bound net.new ≡ N.bound net.old }
{
    let started = start_workers(rt, workers, acceptor, list, latch);
    let serving = hand_over(acceptor, list, started);
    net.set_workers(serving);
    if serving > 0 {
        start_helpers(rt, acceptor, list, net);
    }
    let exit = accept_all(rt, acceptor, clock, net);
    // From now on nobody connects, and no peer that does not read keeps a worker from its end.
    net.close();
    list.close(rt);
    if let Some(ticker) = &acceptor.ticker {
        ticker.close(rt);
    }
    latch.wait(rt, time::Duration::from_secs(LAST_REQUESTS));
    exit
}
