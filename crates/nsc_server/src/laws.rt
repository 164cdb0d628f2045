// What holds of a connection that is looked up in place, and served by a worker behind that.
ghost use Rattle.std.specs.Prelude.{ℕ, List, Option};
ghost use Rattle.nsc_outside.specs.StreamAt.{StreamAt};
ghost use Rattle.nsc_model.specs.declared.kind.Db.{Db};
ghost use Rattle.nsc_model.specs.declared.conf.DbConf.{DbConf};
ghost use Rattle.nsc_model.specs.declared.databases.Databases.{Databases};
ghost use Rattle.nsc_model.specs.Stores.{PassAt};
ghost use Rattle.nsc_sockets.specs.declared.role.Role.TheVariants as role;
ghost use Rattle.nsc_server.specs.declared.scope.Scopes.{Scopes};
ghost use Rattle.nsc_server.specs.declared.served.Served.{Served};
ghost use Rattle.nsc_server.specs.declared.in_place.ServedInPlace.TheVariants.{Not};
ghost use Rattle.nsc_server.specs.InPlace.{ServesInPlace};
ghost use Rattle.nsc_server.specs.Outcomes.{Serves, Side};

/// Says that a connection which was not answered in place is served by `serve_one` as if nobody had looked at it. So what is complete of
/// that call is complete of both.
pub fn lookups_in_place_leave_all_to_serve_one()
    ensures { (settings : Databases DbConf) (scopes : Scopes) (moment : ℕ) (bytes : List ℕ) (before mid : Side) (stale : Option Db)
        (theirs : Databases PassAt) (input input' : StreamAt) (after : Side) (by : Served) → ServesInPlace scopes bytes before mid (Not stale)
        → Serves settings scopes moment role.Plain input input' (record { output = mid.output; passes = theirs }) after by
        → Serves settings scopes moment role.Plain input input' (record { output = before.output; passes = theirs }) after by }
{}
