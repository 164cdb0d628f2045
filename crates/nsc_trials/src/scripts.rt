//! The trials by one caller.

use crate::asked::Asked;
use crate::script::{Script, Step};
use crate::texts::{ABSENT, ROOT_BASH, ROOT_SH};
use crate::wanted::Wanted;
use nsc_model::Stats;

// What a database counts that was never called.
const NONE: Stats = Stats {
    enabled: true,
    hits: 0,
    negative_hits: 0,
    misses: 0,
    negative_misses: 0,
    entries: 0,
    used: 0,
    arena: 27_008,
    invalidations: 0,
    compactions: 0,
    addfailed: 0,
};

// A reply is given until its time is over, though the file has changed; then it is loaded again.
const EXPIRY: Script = Script {
    name: "expiry",
    check_files: false,
    positive: 3600,
    reloads: 5,
    propagate: true,
    steps: &[
        Step::Find(Asked::Root, 0, Wanted::Loaded(0), ROOT_BASH),
        Step::Change,
        Step::Find(Asked::Root, 0, Wanted::Hit(0), ROOT_BASH),
        Step::Tick(3600),
        Step::Find(Asked::Root, 3600, Wanted::Hit(0), ROOT_BASH),
        Step::Tick(3601),
        Step::Find(Asked::Root, 3601, Wanted::Hit(2), ROOT_SH),
        Step::Find(Asked::RootId, 3601, Wanted::Hit(3), ROOT_SH),
    ],
};

// A tick ends every entry where the file changed.
const CHECK_FILES: Script = Script {
    name: "check-files",
    check_files: true,
    positive: 3600,
    reloads: 5,
    propagate: true,
    steps: &[
        Step::Find(Asked::Root, 0, Wanted::Loaded(0), ROOT_BASH),
        Step::Change,
        Step::Find(Asked::Root, 0, Wanted::Hit(0), ROOT_BASH),
        Step::Tick(1),
        Step::Find(Asked::Root, 1, Wanted::Loaded(2), ROOT_SH),
        Step::Find(Asked::RootId, 1, Wanted::Hit(3), ROOT_SH),
    ],
};

// An entry that nobody asks for is dropped after two reloads.
const UNUSED: Script = Script {
    name: "reloads",
    check_files: false,
    positive: 10,
    reloads: 2,
    propagate: true,
    steps: &[
        Step::Find(Asked::Root, 0, Wanted::Loaded(0), ROOT_BASH),
        Step::Tick(11),
        Step::Tick(22),
        Step::Tick(33),
        Step::Change,
        Step::Find(Asked::Root, 33, Wanted::Loaded(6), ROOT_SH),
    ],
};

// A lookup begins the count of reloads anew.
const USED: Script = Script {
    name: "reloads of a used entry",
    check_files: false,
    positive: 10,
    reloads: 2,
    propagate: true,
    steps: &[
        Step::Find(Asked::Root, 0, Wanted::Loaded(0), ROOT_BASH),
        Step::Tick(11),
        Step::Tick(22),
        Step::Find(Asked::Root, 22, Wanted::Hit(4), ROOT_BASH),
        Step::Tick(33),
        Step::Change,
        Step::Find(Asked::Root, 33, Wanted::Hit(6), ROOT_BASH),
        // His number was not used, so its entry was dropped.
        Step::Find(Asked::RootId, 33, Wanted::Loaded(7), ROOT_SH),
    ],
};

// What is counted: a found entry takes 17 words, and one that is not 14.
const STATISTICS: Script = Script {
    name: "statistics",
    check_files: true,
    positive: 3600,
    reloads: 5,
    propagate: false,
    steps: &[
        Step::Count(NONE),
        Step::Find(Asked::Root, 0, Wanted::Loaded(0), ROOT_BASH),
        Step::Find(Asked::Root, 0, Wanted::Hit(0), ROOT_BASH),
        Step::Find(Asked::Nobody, 0, Wanted::Loaded(1), ABSENT),
        Step::Find(Asked::Nobody, 0, Wanted::Hit(1), ABSENT),
        Step::Count(Stats {
            enabled: true,
            hits: 1,
            negative_hits: 1,
            misses: 1,
            negative_misses: 1,
            entries: 2,
            used: 31,
            arena: 27_008,
            invalidations: 0,
            compactions: 0,
            addfailed: 0,
        }),
    ],
};

// A hit leaves the entry as it is.
const HITS: Script = Script {
    name: "hits",
    check_files: true,
    positive: 3600,
    reloads: 5,
    propagate: true,
    steps: &[
        Step::Find(Asked::Root, 0, Wanted::Loaded(0), ROOT_BASH),
        Step::Find(Asked::Root, 0, Wanted::Hit(0), ROOT_BASH),
        Step::Count(Stats {
            enabled: true,
            hits: 1,
            negative_hits: 0,
            misses: 1,
            negative_misses: 0,
            entries: 2,
            used: 34,
            arena: 27_008,
            invalidations: 0,
            compactions: 0,
            addfailed: 0,
        }),
        Step::Find(Asked::Root, 0, Wanted::Hit(0), ROOT_BASH),
    ],
};

// A pass that met another one finds what that one loaded.
const MEETINGS: Script = Script {
    name: "meetings",
    check_files: true,
    positive: 3600,
    reloads: 5,
    propagate: false,
    steps: &[
        Step::Meet(Asked::Root, 0, Wanted::Loaded(0), ROOT_BASH),
        Step::Find(Asked::Root, 0, Wanted::Hit(0), ROOT_BASH),
        Step::Meet(Asked::Root, 0, Wanted::Hit(0), ROOT_BASH),
    ],
};

// An invalidation ends every entry, and frees its words.
const INVALIDATIONS: Script = Script {
    name: "invalidations",
    check_files: true,
    positive: 3600,
    reloads: 5,
    propagate: true,
    steps: &[
        Step::Find(Asked::Root, 0, Wanted::Loaded(0), ROOT_BASH),
        Step::Find(Asked::Nobody, 0, Wanted::Loaded(2), ABSENT),
        Step::Invalidate(1),
        Step::Count(Stats {
            enabled: true,
            hits: 0,
            negative_hits: 0,
            misses: 1,
            negative_misses: 1,
            entries: 0,
            used: 0,
            arena: 27_008,
            invalidations: 1,
            compactions: 1,
            addfailed: 0,
        }),
        Step::Find(Asked::Root, 0, Wanted::Loaded(3), ROOT_BASH),
        Step::Invalidate(2),
    ],
};

// A tick over an unchanged file at which nothing is due changes nothing.
const QUIET: Script = Script {
    name: "quiet ticks",
    check_files: true,
    positive: 3600,
    reloads: 5,
    propagate: true,
    steps: &[
        Step::Find(Asked::Root, 0, Wanted::Loaded(0), ROOT_BASH),
        Step::Tick(0),
        Step::Tick(3600),
        Step::Count(Stats {
            enabled: true,
            hits: 0,
            negative_hits: 0,
            misses: 1,
            negative_misses: 0,
            entries: 2,
            used: 34,
            arena: 27_008,
            invalidations: 0,
            compactions: 0,
            addfailed: 0,
        }),
        Step::Find(Asked::Root, 3600, Wanted::Hit(0), ROOT_BASH),
    ],
};

// A user who was asked by name is kept by number too, and the other way round he is not. Neither counts as a hit or as a miss.
const IDS: Script = Script {
    name: "ids beside names",
    check_files: false,
    positive: 3600,
    reloads: 5,
    propagate: true,
    steps: &[
        Step::Find(Asked::Root, 0, Wanted::Loaded(0), ROOT_BASH),
        Step::Change,
        Step::Find(Asked::RootId, 0, Wanted::Hit(1), ROOT_BASH),
        Step::Invalidate(1),
        Step::Find(Asked::RootId, 0, Wanted::Loaded(2), ROOT_SH),
        Step::Find(Asked::Root, 0, Wanted::Loaded(3), ROOT_SH),
        Step::Count(Stats {
            enabled: true,
            hits: 1,
            negative_hits: 0,
            misses: 3,
            negative_misses: 0,
            entries: 2,
            used: 34,
            arena: 27_008,
            invalidations: 1,
            compactions: 1,
            addfailed: 0,
        }),
    ],
};

/// Each of them.
pub const SCRIPTS: [Script; 10] = [
    EXPIRY,
    CHECK_FILES,
    UNUSED,
    USED,
    STATISTICS,
    HITS,
    MEETINGS,
    INVALIDATIONS,
    QUIET,
    IDS,
];
