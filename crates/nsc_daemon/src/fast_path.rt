// Lookups that the thread that accepts answers in place.
ghost use Rattle.std.specs.Prelude.{◌≡◌, IfOk};
ghost use Rattle.nsc_model.specs.Databases.{database_in, with_database};
ghost use Rattle.nsc_server.specs.Outcomes.{side};
ghost use Rattle.nsc_server.specs.Passes.{AreNamed, ArePasses};
ghost use Rattle.nsc_daemon.specs.FastPath.{ServesAhead, none_of_all, noted, one_more, sum_of, sum_of_all};

use nsc_base::{Buf, NoMemory};
use nsc_model::{Databases, Db, Store, next_count};
use nsc_outside::{Sink, Source};
use nsc_server::{Scopes, ServedInPlace, serve_in_place};
use std::alloc::Global;
use std::marker::Model;
use std::mem::replace;
use std::sync::Wait;
use std::time::{Clock, Duration};

// The room for the reply of an entry: the longest that is kept, in bytes.
const ROOM: usize = 65_536;

// The last number that counts reach.
const LAST: u64 = 1 << 62;

// A pass catches up no earlier than so long after the last try, in milliseconds.
const REST: u64 = 1;

/// Counts lookups of a database that entries answered in place, and that it was not told of yet.
#[derive(Clone, Copy, Debug, PartialEq, Eq)]
pub struct Hits {
    /// Of found replies.
    pub found: u64,
    /// Of not-found replies.
    pub not_found: u64,
}

const NONE: Hits = Hits {
    found: 0,
    not_found: 0,
};

const NONE_OF_ALL: Databases<Hits> = Databases {
    passwd: NONE,
    group: NONE,
    hosts: NONE,
    services: NONE,
};

/// Answers lookups in place. It has room for a reply, and hits that the databases were not told of. It knows when each pass last tried to
/// catch up.
#[derive(Drop)]
pub struct FastPath {
    room: Buf,
    hits: Databases<Hits>,
    tried: Databases<Duration>,
}

impl Model for FastPath {
    ghost use Rattle.std.specs.Prelude.{◌≡◌};
    ghost use Rattle.nsc_daemon.specs.FastPath.{FastPath};

    ghost Value = { FastPath };

    ghost view = { λ f. record { hits = f.hits } };

    ghost invariant = { λ f. f.room.limit ≡ 65536 };
}

impl FastPath {
    /// Makes room for a reply. Fails only for want of memory.
    pub fn new(alloc: Global) -> Result<FastPath, NoMemory>
        ensures { IfOk result (λ fast. fast.hits ≡ none_of_all) }
    {
        Ok(FastPath {
            room: Buf::new(alloc, ROOM)?,
            hits: NONE_OF_ALL,
            tried: Databases {
                passwd: Duration::ZERO,
                group: Duration::ZERO,
                hosts: Duration::ZERO,
                services: Duration::ZERO,
            },
        })
    }

    /// Answers a request in place, if that can be, and notes a hit.
    pub fn serve<S: Store, R: Source, K: Sink>(
        &mut self,
        stores: &Databases<S>,
        scopes: Scopes,
        passes: &mut Databases<S::Pass>,
        input: &R,
        output: &mut K,
    ) -> ServedInPlace
        requires named { AreNamed S.Store stores.now }
        requires passes { ArePasses S.Store stores.now passes.old }
        ensures passes { ArePasses S.Store stores.now passes.new }
        ensures noted { self.new.hits ≡ noted result self.old.hits }
        ensures served { ServesAhead scopes (R.left input.now) (side S.Store K.Sink passes.old output.old) (side S.Store K.Sink passes.new output.new) result }
    {
        let served = serve_in_place(
            stores,
            scopes,
            passes,
            &mut self.room,
            input.ahead(),
            output,
        );
        if let ServedInPlace::Found { db, not_found } = served {
            self.note_hit(db, not_found);
        }
        served
    }

    // Notes a hit of a database.
    fn note_hit(&mut self, db: Db, not_found: bool)
        ensures { self.new.hits ≡ with_database self.old.hits db (one_more not_found (database_in self.old.hits db)) }
    {
        match db {
            Db::Passwd => self.hits.passwd = one_more(self.hits.passwd, not_found),
            Db::Group => self.hits.group = one_more(self.hits.group, not_found),
            Db::Hosts => self.hits.hosts = one_more(self.hits.hosts, not_found),
            Db::Services => self.hits.services = one_more(self.hits.services, not_found),
        }
    }

    /// Adds the hits of another thread.
    pub fn add_hits(&mut self, hits: &Databases<Hits>)
        ensures { self.new.hits ≡ sum_of_all self.old.hits hits.now }
    {
        self.hits = Databases {
            passwd: sum_of(self.hits.passwd, hits.passwd),
            group: sum_of(self.hits.group, hits.group),
            hosts: sum_of(self.hits.hosts, hits.hosts),
            services: sum_of(self.hits.services, hits.services),
        };
    }

    /// Takes the hits that the databases were not told of. None is left.
    pub fn take_hits(&mut self) -> Databases<Hits>
        ensures taken { result ≡ self.old.hits }
        ensures left { self.new.hits ≡ none_of_all }
    {
        replace(&mut self.hits, NONE_OF_ALL)
    }

    /// Has the pass of a database go on to its present table, once a millisecond at most.
    pub fn catch_up<RT: Clock, S: Store>(
        &mut self,
        rt: &RT,
        stores: &Databases<S>,
        passes: &mut Databases<S::Pass>,
        db: Db,
    )
        requires { ArePasses S.Store stores.now passes.old }
        ensures passes { ArePasses S.Store stores.now passes.new }
        ensures hits { self.new.hits ≡ self.old.hits }
    {
        let Ok(now) = rt.monotonic() else {
            return;
        };
        match db {
            Db::Passwd => follow(
                &stores.passwd,
                &mut passes.passwd,
                &mut self.tried.passwd,
                now,
            ),
            Db::Group => follow(&stores.group, &mut passes.group, &mut self.tried.group, now),
            Db::Hosts => follow(&stores.hosts, &mut passes.hosts, &mut self.tried.hosts, now),
            Db::Services => follow(
                &stores.services,
                &mut passes.services,
                &mut self.tried.services,
                now,
            ),
        }
    }
}

// Counts one more hit, of a not-found or a found reply.
fn one_more(hits: Hits, not_found: bool) -> Hits
    ensures { result ≡ one_more not_found hits }
{
    if not_found {
        Hits {
            not_found: next_count(hits.not_found),
            ..hits
        }
    } else {
        Hits {
            found: next_count(hits.found),
            ..hits
        }
    }
}

// Adds hits of one database. Each number stays at 2^62.
fn sum_of(first: Hits, second: Hits) -> Hits
    ensures { result ≡ sum_of first second }
{
    Hits {
        found: first.found.saturating_add(second.found).min(LAST),
        not_found: first.not_found.saturating_add(second.not_found).min(LAST),
    }
}

/// Tells each database of its hits.
pub fn note_hits<RT: Wait, S: Store>(rt: &RT, stores: &Databases<S>, hits: &Databases<Hits>) {
    note(rt, &stores.passwd, hits.passwd);
    note(rt, &stores.group, hits.group);
    note(rt, &stores.hosts, hits.hosts);
    note(rt, &stores.services, hits.services);
}

// Tells a database of its hits, if there are any.
fn note<RT: Wait, S: Store>(rt: &RT, store: &S, hits: Hits) {
    if hits != NONE {
        store.note_hits(rt, hits.found, hits.not_found);
    }
}

// Has a pass catch up at this moment, unless it tried a short time ago.
fn follow<S: Store>(store: &S, pass: &mut S::Pass, tried: &mut Duration, now: Duration)
    requires { S.is_pass store.now pass.old }
    ensures { S.is_pass store.now pass.new }
{
    if now.saturating_sub(*tried) < Duration::from_millis(REST) {
        return;
    }
    *tried = now;
    let _ = store.catch_up(pass);
}
