//! The machine that a cache is, and the core of its database.

ghost use Rattle.std.specs.Prelude.{◌≡◌, ℕ, List, [], ◌∷◌, Option, None};
ghost use Rattle.nsc_model.specs.declared.answer.Request.{Request};
ghost use Rattle.nsc_model.specs.declared.kind.Db.{Db};
ghost use Rattle.nsc_model.specs.declared.record.Record.TheVariants.{Change};
ghost use Rattle.nsc_model.specs.Content.{Content};
ghost use Rattle.nsc_model.specs.Files.{part_of};
ghost use Rattle.nsc_model.specs.declared.conf.DbConf.{DbConf};
ghost use Rattle.nsc_model.specs.Machine.{Cache, new_cache, live_entry, overtaken, lookup, tick, invalidated};
ghost use Rattle.nsc_laws.specs.Core.{Core, opening};
ghost use Rattle.nsc_laws.specs.Calls.{Drives, TurnsBy, PassesBy, Event, EachAnswered};
ghost use Rattle.nsc_laws.specs.Reloading.{EachReloaded};

/// Each event of the machine is a list of moves of the core, made by one caller that has seen the whole history before
/// it, with the same records and the same reply; so also where it stops. The reply is an answer to its request, and an entry
/// that it comes from is live at that moment.
pub fn machine_events_are_moves()
    ensures begins { (db : Db) (a : ℕ) (files : Content) → Drives db a (opening db files) (new_cache (part_of db files)) }
    ensures files { (db : Db) (a : ℕ) (old : Core) (cache : Cache) (files : Content) → Drives db a old cache → Drives db a (record old { sources = files }) cache }
    ensures lookup { (db : Db) (a : ℕ) (settings : DbConf) (now : ℕ) (request : Request) (old : Core) (cache : Cache) →
        Drives db a old cache → TurnsBy db a old request (lookup settings now (part_of db old.sources) request cache) }
    ensures tick { (db : Db) (a : ℕ) (settings : DbConf) (reloads : Option ℕ) (now ticked : ℕ) (old : Core) (cache : Cache) →
        Drives db a old cache → PassesBy db a old (tick settings reloads now (part_of db old.sources) ticked cache) }
    ensures invalidation { (db : Db) (a : ℕ) (old : Core) (cache : Cache) → Drives db a old cache → PassesBy db a old (invalidated cache) }
{}

/// In every run of events from a new cache, whatever the files are at each of them, the history is legal and each reply
/// is an answer to its request, for a caller that had seen the whole history before the lookup.
pub fn runs_are_answered()
    ensures { (db : Db) (settings : DbConf) (reloads : Option ℕ) (files : Content) (events : List Event) →
        EachAnswered db settings reloads events 0 (new_cache (part_of db files)) (Change 0 (part_of db files) ∷ []) }
{}

/// In every run of events from a new cache, whatever the files are at each of them: an entry that ended as expired gave a not-found
/// reply, or as many entries of its request as the limit says had ended before as replaced; after each end as invalidated the
/// invalidation itself stands; and after each end as replaced an entry of its request was inserted, or no more entries can be counted,
/// or its answer over some version is too long to be kept, or at some moment after that end its answer over some version wanted more
/// words than the live entries left of the room. So also where an event stopped, but that nothing is said of ends as replaced where no
/// more compactions can be counted.
pub fn runs_are_reloaded()
    ensures { (db : Db) (settings : DbConf) (reloads : Option ℕ) (files : Content) (events : List Event) →
        EachReloaded db settings reloads events 0 (new_cache (part_of db files)) (Change 0 (part_of db files) ∷ []) }
{}

/// An insertion that notes the present epoch, and whose request has no live entry, is overtaken by none: no invalidation came
/// since, and no other insertion of the request.
pub fn lone_insertions_are_not_overtaken()
    ensures { (request : Request) (cache : Cache) → live_entry request cache.entries ≡ None → overtaken cache.epoch request cache ≡ None }
{}
