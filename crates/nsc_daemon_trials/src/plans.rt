// The trials, in order.

use crate::requests::{
    DB, DESCRIPTOR, EVE, HTTP, INVALIDATE_PASSWD, INVALIDATE_SHADOW, LINE, LINES, LOCALHOST,
    LONG_KEY, NEGATIVE_KEY, NO_KEY, NO_TYPE, OLD_VERSION, ROOT, ROOT_GROUP, SHORT, SHUTDOWN, SSH,
    STAFF, STATISTICS, TWO, TWO_ORDERS,
};
use nsc_sockets::Role;

/// With which images a trial begins.
#[derive(Clone, Copy, PartialEq, Eq)]
pub enum Images {
    /// None.
    Absent,
    /// None, and no image can be got or put.
    Failing,
    /// Those that the trial before it left.
    Left,
}

/// What comes next.
#[derive(Clone, Copy)]
pub enum Step {
    /// A peer, who sends these bytes.
    Peer(Role, &'static [u8]),
    /// A peer; the first byte that is sent to it sets the flag.
    Setting(Role, &'static [u8]),
    /// A peer, who sends a key of as many bytes as there may be.
    LongestKey,
    /// A peer of the gate, who sends a line of as many letters as there may be, one with a letter more, and a good line.
    LongLines,
    /// Nobody, until the flag is set.
    QuietUntilSet,
    /// Nobody, this number of times.
    Quiet(u32),
}

/// A trial: the words of the program, its configuration, the first moment, how many seconds lie between two looks at the clock, its
/// images, what the flag does, who comes, and what the daemon sends that it reaches.
pub struct Plan {
    pub name: &'static str,
    pub words: &'static [&'static str],
    pub conf: &'static [u8],
    pub start: u64,
    pub seconds: u64,
    pub images: Images,
    /// Until the flag is set, all reads of users but that of the start wait. If not, the files change once it is set.
    pub holds: bool,
    pub steps: &'static [Step],
    pub reached: &'static [&'static [u8]],
}

const ONE: &[&str] = &["-t", "1"];

const WITH_GATE: &[&str] = &["-t", "1", "--gate", "/gate"];

const END: Step = Step::Peer(Role::Admin, SHUTDOWN);

// One worker, an empty configuration and a clock that stands at 0.
const PLAN: Plan = Plan {
    name: "",
    words: ONE,
    conf: b"",
    start: 0,
    seconds: 0,
    images: Images::Absent,
    holds: false,
    steps: &[],
    reached: &[],
};

// Found replies are kept for long, and absent ones for five minutes; a change of the files ends none.
const KEPT: &[u8] = b"check-files passwd no
check-files group no
check-files hosts no
check-files services no
positive-time-to-live passwd 500000
positive-time-to-live group 500000
positive-time-to-live hosts 500000
positive-time-to-live services 500000
negative-time-to-live passwd 300
negative-time-to-live group 300
negative-time-to-live hosts 300
negative-time-to-live services 300
";

// Only users are kept in an image.
const PERSISTENT: &[u8] = b"persistent passwd yes\n";

const NOT_CACHED: &[u8] = b"persistent passwd yes\nenable-cache passwd no\n";

const FOR_LESS: &[u8] = b"persistent passwd yes\npositive-time-to-live passwd 60\n";

// Connections to the gate, and one to the plain socket between them. Without a gate nobody answers those. On the last one a line is
// too long, so neither it nor what follows it is answered.
const AT_THE_GATE: &[Step] = &[
    Step::Peer(Role::Gate, LINES),
    Step::Peer(Role::Plain, ROOT),
    Step::Peer(Role::Gate, LINE),
    Step::LongLines,
    END,
];

/// The trials. Each with images begins with those that the one before it left, and each time in them is the one that was kept, unless an
/// entry that is made anew would be over before.
pub const PLANS: [Plan; 23] = [
    Plan {
        name: "one worker",
        steps: &[Step::Peer(Role::Plain, ROOT), END],
        ..PLAN
    },
    // The lookup of a user waits in its read until the next peer has the reply of a host, so two workers are needed.
    Plan {
        name: "two workers",
        words: &["-t", "2"],
        holds: true,
        steps: &[
            Step::Peer(Role::Plain, ROOT),
            Step::Setting(Role::Plain, LOCALHOST),
            END,
        ],
        ..PLAN
    },
    Plan {
        name: "no connection",
        ..PLAN
    },
    // A daemon that is told to end replies with another number than 0.
    Plan {
        name: "a bad reply",
        words: &["-K"],
        reached: &[b"\x01\0\0\0"],
        ..PLAN
    },
    // The files change once the first lookup is answered. Fifteen seconds pass between any two looks at the clock, so each turn ticks,
    // and the second lookup finds them as they are.
    Plan {
        name: "a tick",
        seconds: 15,
        steps: &[
            Step::Setting(Role::Plain, ROOT),
            Step::QuietUntilSet,
            Step::Quiet(1),
            Step::Peer(Role::Plain, ROOT),
            END,
        ],
        ..PLAN
    },
    // Keys of no bytes, of as many as there may be, of one more, and of less than none.
    Plan {
        name: "lengths of keys",
        steps: &[
            Step::Peer(Role::Plain, NO_KEY),
            Step::LongestKey,
            Step::Peer(Role::Plain, LONG_KEY),
            Step::Peer(Role::Plain, NEGATIVE_KEY),
            END,
        ],
        ..PLAN
    },
    Plan {
        name: "refused requests",
        steps: &[
            Step::Peer(Role::Plain, OLD_VERSION),
            Step::Peer(Role::Plain, NO_TYPE),
            Step::Peer(Role::Plain, DESCRIPTOR),
            Step::Peer(Role::Plain, SHORT),
            END,
        ],
        ..PLAN
    },
    Plan {
        name: "orders",
        steps: &[
            Step::Peer(Role::Admin, INVALIDATE_PASSWD),
            Step::Peer(Role::Admin, INVALIDATE_SHADOW),
            Step::Peer(Role::Plain, INVALIDATE_PASSWD),
            Step::Peer(Role::Plain, SHUTDOWN),
            Step::Peer(Role::Admin, INVALIDATE_PASSWD),
            END,
        ],
        ..PLAN
    },
    Plan {
        name: "two requests",
        steps: &[
            Step::Peer(Role::Plain, TWO),
            Step::Peer(Role::Admin, TWO_ORDERS),
            END,
        ],
        ..PLAN
    },
    // With one worker the same read gives up after ten seconds, so the first lookup fails. Those behind it have waited for more than
    // five by then, so they are closed unanswered.
    Plan {
        name: "a read that fails",
        holds: true,
        steps: &[
            Step::Peer(Role::Plain, ROOT),
            Step::Setting(Role::Plain, LOCALHOST),
            Step::Peer(Role::Plain, ROOT),
            END,
        ],
        ..PLAN
    },
    // What is asked first of each database is not there, and what is asked then is. After that the files change, and the time of what
    // was not there goes by. So at the end the second is as a worker kept it, at the moment at which it came, and a tick of each
    // database has ended the first. The admin socket's requests are served by the thread that ticks.
    Plan {
        name: "moments",
        conf: KEPT,
        start: 1_000_000,
        seconds: 15,
        steps: &[
            Step::Peer(Role::Admin, EVE),
            Step::Peer(Role::Admin, STAFF),
            Step::Peer(Role::Admin, DB),
            Step::Peer(Role::Admin, HTTP),
            Step::Peer(Role::Plain, ROOT),
            Step::Peer(Role::Plain, ROOT_GROUP),
            Step::Peer(Role::Plain, LOCALHOST),
            Step::Setting(Role::Plain, SSH),
            Step::QuietUntilSet,
            Step::Quiet(25),
            Step::Peer(Role::Plain, ROOT),
            Step::Peer(Role::Plain, ROOT_GROUP),
            Step::Peer(Role::Plain, LOCALHOST),
            Step::Peer(Role::Plain, SSH),
            Step::Peer(Role::Admin, EVE),
            Step::Peer(Role::Admin, STAFF),
            Step::Peer(Role::Admin, DB),
            Step::Peer(Role::Admin, HTTP),
            END,
        ],
        ..PLAN
    },
    Plan {
        name: "a gate",
        words: WITH_GATE,
        steps: AT_THE_GATE,
        ..PLAN
    },
    Plan {
        name: "no gate",
        steps: AT_THE_GATE,
        ..PLAN
    },
    Plan {
        name: "no image is put",
        conf: PERSISTENT,
        images: Images::Failing,
        steps: &[Step::Peer(Role::Plain, ROOT), END],
        ..PLAN
    },
    Plan {
        name: "an image is put",
        conf: PERSISTENT,
        steps: &[Step::Peer(Role::Plain, ROOT), END],
        ..PLAN
    },
    Plan {
        name: "it comes back",
        conf: PERSISTENT,
        images: Images::Left,
        steps: &[Step::Peer(Role::Admin, STATISTICS), END],
        ..PLAN
    },
    Plan {
        name: "a clock set forward",
        conf: PERSISTENT,
        images: Images::Left,
        start: 1000,
        steps: &[END],
        ..PLAN
    },
    Plan {
        name: "a clock set far forward",
        conf: PERSISTENT,
        images: Images::Left,
        start: 5000,
        steps: &[END],
        ..PLAN
    },
    Plan {
        name: "an entry of that time",
        conf: PERSISTENT,
        start: 5000,
        steps: &[
            Step::Peer(Role::Plain, ROOT),
            Step::Peer(Role::Plain, EVE),
            END,
        ],
        ..PLAN
    },
    Plan {
        name: "a clock set back",
        conf: PERSISTENT,
        images: Images::Left,
        steps: &[END],
        ..PLAN
    },
    Plan {
        name: "a shorter time to live",
        conf: FOR_LESS,
        images: Images::Left,
        steps: &[END],
        ..PLAN
    },
    Plan {
        name: "no persistent database",
        images: Images::Left,
        steps: &[Step::Peer(Role::Admin, STATISTICS), END],
        ..PLAN
    },
    Plan {
        name: "no cached database",
        conf: NOT_CACHED,
        images: Images::Left,
        steps: &[Step::Peer(Role::Admin, STATISTICS), END],
        ..PLAN
    },
];
