// `Store`: the trait of one database for many threads; its results, faults and statistics.
ghost use Rattle.std.specs.Prelude.{◌≡◌, ◌⊎◌, ◌+◌, ◌++◌, ◌<◌, ◌^◌, ◌≤◌, ℕ, List, Option, IsOk, length, IfOk, IfErr, OnOk, []};
ghost use Rattle.std.specs.Bool.{OnFalse, OnTrue};
ghost use Rattle.nsc_model.specs.declared.kind.Db.{Db};
ghost use Rattle.nsc_model.specs.declared.answer.Request.{Request};
ghost use Rattle.nsc_model.specs.declared.conf.DbConf.{DbConf};
ghost use Rattle.nsc_model.specs.Content.{Content};
ghost use Rattle.nsc_model.specs.Entry.{key_limit, kept_limit};
ghost use Rattle.nsc_model.specs.InPlace.{InPlaceClause, IsOdd};
ghost use Rattle.nsc_model.specs.Kinds.{database_of};
ghost use Rattle.nsc_model.specs.Made.{Adds, AddsByLookup, AddsByRefusedInvalidation, AddsByRefusedLookup, AddsByRefusedTick, AddsNothing, IsInvalidation};
ghost use Rattle.nsc_model.specs.History.{IsPrefix, Legal};
ghost use Rattle.nsc_model.specs.Steady.{IsSteady};
ghost use Rattle.nsc_model.specs.Stores.{Continues, GivesAnswerAt, GivesUpAt, IsCounted, IsEmptied, IsImageOf, IsInvalidateFault, IsOfFilesAt, IsTickedAt, IsTickFaultAt, LoadedLastCycle, PassAt, StaysCalm};

use crate::fault::CacheFault;
use crate::in_place::{InPlace, Sought};
use crate::kind::{FileId, Kind};
use nsc_base::{Buf, Bytes, NoMemory};
use std::alloc::Global;
use std::sync::Wait;
use thiserror::Error;

/// A count that a call needs stands at its end, which is 2^62.
#[derive(Clone, Copy, Debug, PartialEq, Eq)]
pub struct Spent {
    /// The count.
    pub count: u64,
}

/// What a database counts. Each number stays at 2^62.
#[derive(Clone, Copy, Debug, PartialEq, Eq)]
pub struct Stats {
    /// Whether the database is cached.
    pub enabled: bool,
    /// How many lookups a live entry answered with a found reply.
    pub hits: u64,
    /// How many lookups a live entry answered with a not-found reply.
    pub negative_hits: u64,
    /// How many lookups made a found answer anew.
    pub misses: u64,
    /// How many lookups made a not-found answer anew.
    pub negative_misses: u64,
    /// How many entries are live.
    pub entries: u64,
    /// How many words entries take, the live ones and those that ended since the last compaction.
    pub used: u64,
    /// How many words entries may take in the table as it is.
    pub arena: u64,
    /// How often the database was invalidated.
    pub invalidations: u64,
    /// How often it was compacted, with the times that its table became larger.
    pub compactions: u64,
    /// How many insertions found no room.
    pub addfailed: u64,
}

/// What a lookup gave.
#[derive(Debug, Drop)]
pub enum Given {
    /// The reply of a live entry.
    Hit {
        /// The reply.
        bytes: Bytes,
        /// The number of the entry.
        number: u64,
    },
    /// A reply that was made anew, and inserted.
    Loaded {
        /// The reply.
        bytes: Bytes,
        /// The number of the new entry.
        number: u64,
    },
    /// A reply that was made anew, and is not kept.
    Fresh {
        /// The reply.
        bytes: Bytes,
        /// Why it is not kept.
        why: Why,
    },
}

/// Why a reply that was made anew is not kept.
#[derive(Clone, Copy, Debug, PartialEq, Eq)]
pub enum Why {
    /// The database is not cached.
    Disabled,
    /// The reply is longer than 65,536 bytes.
    TooLarge {
        /// Its length in bytes.
        length: u64,
    },
    /// The database was invalidated while the reply was made.
    Discarded {
        /// How often it was invalidated before the files were read.
        loaded: u64,
        /// How often it was invalidated by the time of the insertion.
        epoch: u64,
    },
    /// Another caller inserted an entry of the request.
    Present {
        /// The number of that entry.
        number: u64,
    },
    /// No more entries can be counted.
    Spent {
        /// The count of entries, 2^62.
        count: u64,
    },
    /// Too few words are free, and the table cannot become large enough.
    Full {
        /// How many words the entry needs.
        need: u64,
        /// How many are free.
        free: u64,
    },
}

/// Why a lookup or a tick gave up.
#[derive(Clone, Copy, Debug, PartialEq, Eq, Error)]
pub enum LookupFault {
    /// Memory was short.
    #[error("out of memory")]
    NoMemory,
    /// A count that the call needs stands at its end.
    #[error("a count stands at {count}")]
    Spent {
        /// The count, 2^62.
        count: u64,
    },
    /// A file is there, or may be, and could not be read.
    #[error("a file could not be read")]
    SourceFault {
        /// The file.
        file: FileId,
    },
    /// A file is longer than 16,777,216 bytes.
    #[error("a file of {length} bytes is too long")]
    TooLong {
        /// The file.
        file: FileId,
        /// The length in bytes, as far as it is known.
        length: u64,
    },
}

impl From<NoMemory> for LookupFault {
    ghost use Rattle.std.specs.Prelude.{◌≡◌};
    ghost use Rattle.nsc_model.specs.declared.store.LookupFault.TheVariants.{NoMemory as Memory};

    ghost from_gives = { λ _ fault. fault ≡ Memory };

    fn from(_e: NoMemory) -> LookupFault {
        LookupFault::NoMemory
    }
}

impl From<Spent> for LookupFault {
    ghost use Rattle.std.specs.Prelude.{◌≡◌};
    ghost use Rattle.nsc_model.specs.declared.store.LookupFault.TheVariants.{Spent as CountSpent};

    ghost from_gives = { λ spent fault. fault ≡ CountSpent spent.count };

    fn from(e: Spent) -> LookupFault {
        LookupFault::Spent { count: e.count }
    }
}

/// One database for many threads. Each has a pass of its own, with which it calls.
pub trait Store {
    /// What a caller has.
    type Pass: Drop;

    // The database.
    ghost db: { Self → Db };

    // Its settings.
    ghost settings: { Self → DbConf };

    // After how many reloads without a use an entry is dropped.
    ghost reloads: { Self → Option ℕ };

    // How many reloads an image brought back for each request.
    ghost brought: { Self → Request → ℕ };

    // Whether a pass is one of this store.
    ghost is_pass: { Self → Self.Pass → Type 0 };

    // What a pass is at a moment.
    ghost at: { Self.Pass → PassAt };

    // The files that every read of the store gives, if these are told.
    ghost held: { Self → Option Content };

    /// A new pass. Fails only for want of memory.
    fn attach<R: Wait>(&self, rt: &R, alloc: Global) -> Result<Self::Pass, NoMemory>
        ensures pass { IfOk result (λ pass. is_pass self.now pass) }
        ensures legal { IfOk result (λ pass. Legal (at pass).seen) }
        ensures made { IfOk result (λ pass. (at pass).made ≡ []) }
        ensures steady { IfOk result (λ pass. IsSteady (held self.now) (db self.now) (at pass).seen) };

    /// Looks up the request of this kind and key at this moment, in seconds. The reply is that of its live entry, or else the answer over
    /// the files as they are read in this call, which is then kept if nothing refuses it. With `auto-propagate` (nscd.conf(5)) a lookup
    /// by name that is kept has the request by id kept too, with the answer to it.
    ///
    /// # Errors
    ///
    /// This call inserted no entry and ended none. At `NoMemory` it may have recorded a look at the files, and the table may have grown. At
    /// the others it recorded nothing.
    fn lookup<R: Wait>(
        &self,
        rt: &R,
        alloc: Global,
        pass: &mut Self::Pass,
        kind: Kind,
        key: &[u8],
        now: u64,
    ) -> Result<Given, LookupFault>
        requires pass { is_pass self.now pass.old }
        requires kind { database_of kind ≡ db self.now }
        requires key { length key.now ≤ key_limit }
        requires moment { now < 2 ^ 62 }
        ensures pass { is_pass self.now pass.new }
        ensures seen { Continues (at pass.old).seen (at pass.new).seen }
        ensures steady { IsSteady (held self.now) (db self.now) (at pass.new).seen }
        ensures searches { (at pass.old).searches ≤ (at pass.new).searches }
        ensures answer { IfOk result (GivesAnswerAt (settings self.now) now (at pass.old) (at pass.new) (record { kind = kind; key = key.now })) }
        ensures files { IfOk result (IsOfFilesAt (db self.now) (held self.now) (at pass.old) (at pass.new) (record { kind = kind; key = key.now })) }
        ensures fault { IfErr result (GivesUpAt (settings self.now) (at pass.old) (at pass.new) (record { kind = kind; key = key.now })) }
        ensures made { IfOk result (AddsByLookup (settings self.now) (record { kind = kind; key = key.now }) (at pass.old) (at pass.new)) }
        ensures refused { IfErr result (AddsByRefusedLookup (at pass.old) (at pass.new)) }
        ensures no_fault { OnOk result (StaysCalm (at pass.old) (at pass.new)) };

    /// Does what is due at this moment, in seconds, if the database is cached. The files are looked at. If they changed since the last
    /// tick, and that counts, every entry ends. Else the entries whose time is over end, and those that are not dropped are loaded again
    /// over the files as they were found, if nothing refuses it.
    ///
    /// # Errors
    ///
    /// At `NoMemory` this call ended no entry. At `Spent` of the versions it recorded nothing. At `Spent` of the invalidations it recorded
    /// the look at the files alone. At `Spent` of the compactions the entries that it ended are not loaded again.
    fn tick<R: Wait>(
        &self,
        rt: &R,
        alloc: Global,
        pass: &mut Self::Pass,
        now: u64,
    ) -> Result<(), LookupFault>
        requires pass { is_pass self.now pass.old }
        requires moment { now < 2 ^ 62 }
        ensures pass { is_pass self.now pass.new }
        ensures seen { Continues (at pass.old).seen (at pass.new).seen }
        ensures steady { OnTrue (settings self.now).enabled (IsSteady (held self.now) (db self.now) (at pass.new).seen) }
        ensures searches { (at pass.old).searches ≤ (at pass.new).searches }
        ensures ticked { OnOk result (OnTrue (settings self.now).enabled (IsTickedAt (db self.now) (settings self.now) (brought self.now) (reloads self.now) now (at pass.old) (at pass.new))) }
        ensures uncached { OnFalse (settings self.now).enabled (IsOk result × (pass.new ≡ pass.old)) }
        ensures fault { IfErr result (IsTickFaultAt (settings self.now) now (at pass.old) (at pass.new)) }
        ensures refused { IfErr result (AddsByRefusedTick (at pass.old) (at pass.new)) }
        ensures no_fault { OnOk result (StaysCalm (at pass.old) (at pass.new)) };

    /// Ends every live entry as invalidated, and gives the new number of invalidations.
    ///
    /// # Errors
    ///
    /// At `NoMemory` and at `Spent` of the invalidations this call ended no entry. At `Spent` of the compactions it ended every entry, and
    /// the invalidation is counted.
    fn invalidate<R: Wait>(&self, rt: &R, pass: &mut Self::Pass) -> Result<u64, CacheFault>
        requires { is_pass self.now pass.old }
        ensures pass { is_pass self.now pass.new }
        ensures seen { Continues (at pass.old).seen (at pass.new).seen }
        ensures steady { IsSteady (held self.now) (db self.now) (at pass.new).seen }
        ensures searches { (at pass.old).searches ≤ (at pass.new).searches }
        ensures done { IfOk result (λ epoch. IsEmptied (at pass.old).seen (at pass.new).seen epoch) }
        ensures fault { IfErr result (λ fault. IsInvalidateFault fault (at pass.new).seen (LoadedLastCycle (at pass.old) (at pass.new))) }
        ensures made { IfOk result (λ epoch. Adds (IsInvalidation epoch) (at pass.old) (at pass.new)) }
        ensures refused { IfErr result (AddsByRefusedInvalidation (at pass.old) (at pass.new)) }
        ensures no_fault { StaysCalm (at pass.old) (at pass.new) };

    /// Searches for the live entry of the request of this kind and key while others go on, and puts its reply into the buffer of 65,536
    /// bytes, which is empty at any other answer. It takes no lock, no memory and no runtime, and writes nothing. A database that is
    /// not cached has no entries. A pass that has seen that another table goes on in place of its own answers `Odd`.
    fn in_place(&self, pass: &mut Self::Pass, kind: Kind, key: &[u8], out: &mut Buf) -> InPlace
        requires pass { is_pass self.now pass.old }
        requires kind { database_of kind ≡ db self.now }
        requires key { length key.now ≤ key_limit }
        requires limit { out.old.limit ≡ kept_limit }
        ensures pass { is_pass self.now pass.new }
        ensures limit { out.new.limit ≡ out.old.limit }
        ensures seen { Continues (at pass.old).seen (at pass.new).seen }
        ensures searches { (at pass.new).searches ≡ (at pass.old).searches + 1 }
        ensures answer { InPlaceClause (at pass.old).seen (at pass.new).seen (record { kind = kind; key = key.now }) (at pass.new).first (at pass.new).last out.new.content result }
        ensures left { OnTrue (at pass.old).retired (IsOdd result) }
        ensures made { AddsNothing (at pass.old) (at pass.new) }
        ensures no_fault { StaysCalm (at pass.old) (at pass.new) };

    /// Searches as `in_place` does, and says whether the entry that answers was loaded again since it was used last.
    fn seek(&self, pass: &mut Self::Pass, kind: Kind, key: &[u8], out: &mut Buf) -> Sought
        requires pass { is_pass self.now pass.old }
        requires kind { database_of kind ≡ db self.now }
        requires key { length key.now ≤ key_limit }
        requires limit { out.old.limit ≡ kept_limit }
        ensures pass { is_pass self.now pass.new }
        ensures limit { out.new.limit ≡ out.old.limit }
        ensures seen { Continues (at pass.old).seen (at pass.new).seen }
        ensures searches { (at pass.new).searches ≡ (at pass.old).searches + 1 }
        ensures answer { InPlaceClause (at pass.old).seen (at pass.new).seen (record { kind = kind; key = key.now }) (at pass.new).first (at pass.new).last out.new.content result.answer }
        ensures left { OnTrue (at pass.old).retired (IsOdd result.answer) }
        ensures made { AddsNothing (at pass.old) (at pass.new) }
        ensures no_fault { StaysCalm (at pass.old) (at pass.new) };

    /// Goes on to the table that is written, if the writer's lock is free, so that searches in place find its entries. It adds no record.
    /// `false` if the lock is held, which leaves the pass as it is, or if memory is short.
    fn catch_up(&self, pass: &mut Self::Pass) -> bool
        requires { is_pass self.now pass.old }
        ensures pass { is_pass self.now pass.new }
        ensures seen { (pass.new ≡ pass.old) ⊎ Continues (at pass.old).seen (at pass.new).seen }
        ensures followed { OnTrue result (IsSteady (held self.now) (db self.now) (at pass.new).seen) }
        ensures searches { (at pass.old).searches ≤ (at pass.new).searches }
        ensures made { AddsNothing (at pass.old) (at pass.new) }
        ensures no_fault { StaysCalm (at pass.old) (at pass.new) };

    /// Counts lookups that live entries answered in place: of found and of not-found replies. Each number stays at 2^62. It takes no
    /// memory, and changes nothing else.
    fn note_hits<R: Wait>(&self, rt: &R, found: u64, not_found: u64);

    /// What the database counts. Fails only for want of memory.
    fn stats<R: Wait>(&self, rt: &R, pass: &mut Self::Pass) -> Result<Stats, NoMemory>
        requires { is_pass self.now pass.old }
        ensures pass { is_pass self.now pass.new }
        ensures seen { Continues (at pass.old).seen (at pass.new).seen }
        ensures steady { IsSteady (held self.now) (db self.now) (at pass.new).seen }
        ensures searches { (at pass.old).searches ≤ (at pass.new).searches }
        ensures counted { IfOk result (λ stats. IsCounted (settings self.now) (at pass.new).words (at pass.new).seen stats) }
        ensures enabled { IfOk result (λ stats. stats.enabled ≡ (settings self.now).enabled) }
        ensures made { AddsNothing (at pass.old) (at pass.new) }
        ensures no_fault { StaysCalm (at pass.old) (at pass.new) };

    /// The image of the live entries, in the order of their numbers. Fails only for want of memory.
    fn save<R: Wait>(&self, rt: &R, alloc: Global, pass: &mut Self::Pass) -> Result<Bytes, NoMemory>
        requires { is_pass self.now pass.old }
        ensures pass { is_pass self.now pass.new }
        ensures seen { Continues (at pass.old).seen (at pass.new).seen }
        ensures steady { IsSteady (held self.now) (db self.now) (at pass.new).seen }
        ensures searches { (at pass.old).searches ≤ (at pass.new).searches }
        ensures image { IfOk result (IsImageOf (db self.now) (at pass.new).seen) }
        ensures made { AddsNothing (at pass.old) (at pass.new) }
        ensures no_fault { StaysCalm (at pass.old) (at pass.new) };

    /// The pass has seen, then, all that it and the other one had seen.
    fn meet(&self, pass: &mut Self::Pass, other: Self::Pass)
        requires pass { is_pass self.now pass.old }
        requires other { is_pass self.now other }
        ensures pass { is_pass self.now pass.new }
        ensures seen { Continues (at pass.old).seen (at pass.new).seen }
        ensures searches { (at pass.old).searches ≤ (at pass.new).searches }
        ensures other { IsPrefix (at other).seen (at pass.new).seen }
        ensures made { (at pass.new).made ≡ (at other).made ++ (at pass.old).made }
        ensures no_fault { StaysCalm (at pass.old) (at pass.new) };
}
