// `Room` and `OfDb`: the brand of a group of databases, and the name of each database.
use std::marker::Brand;

/// Names the words of each database, their configuration, the files that their file sets tell, and the reloads that images brought back.
pub trait Room {
    ghost use Rattle.atomic_table.specs.Seated.{TableId};
    ghost use Rattle.std.specs.Prelude.{ℕ, Option};
    ghost use Rattle.nsc_model.specs.declared.answer.Request.{Request};
    ghost use Rattle.nsc_model.specs.Content.{Content};
    ghost use Rattle.nsc_model.specs.declared.conf.Conf.{Conf};
    ghost use Rattle.nsc_model.specs.declared.kind.Db.{Db};

    ghost table: { Db → TableId };

    ghost conf: { Conf };

    // The files that every file set of the room holds, where they tell them.
    ghost held: { Option Content };

    // How many reloads an image brought back into each database for each request.
    ghost brought: { Db → Request → ℕ };
}

impl Room for Brand {
    ghost use Rattle.std.specs.Prelude.{None};
    ghost use Rattle.nsc_model.specs.Reloads.{none_brought};
    ghost use Rattle.nsc_model.specs.Settings.{default_settings};
    ghost use Rattle.nsc_database.specs.Rooms.{no_table};

    ghost table = { λ db. no_table };

    ghost conf = { default_settings };

    ghost held = { None };

    ghost brought = { λ db. none_brought };
}

/// Names a database.
pub trait OfDb {
    ghost use Rattle.nsc_model.specs.declared.kind.Db.{Db};

    ghost db: { Db };
}

/// The database `passwd` of nsswitch.conf(5).
pub struct OfPasswd;

/// The database `group` of nsswitch.conf(5).
pub struct OfGroup;

/// The database `hosts` of nsswitch.conf(5).
pub struct OfHosts;

/// The database `services` of nsswitch.conf(5).
pub struct OfServices;

impl OfDb for OfPasswd {
    ghost use Rattle.nsc_model.specs.declared.kind.Db.TheVariants as db_is;

    ghost db = { db_is.Passwd };
}

impl OfDb for OfGroup {
    ghost use Rattle.nsc_model.specs.declared.kind.Db.TheVariants as db_is;

    ghost db = { db_is.Group };
}

impl OfDb for OfHosts {
    ghost use Rattle.nsc_model.specs.declared.kind.Db.TheVariants as db_is;

    ghost db = { db_is.Hosts };
}

impl OfDb for OfServices {
    ghost use Rattle.nsc_model.specs.declared.kind.Db.TheVariants as db_is;

    ghost db = { db_is.Services };
}
