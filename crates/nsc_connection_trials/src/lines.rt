// Connections to the gate, and what is asked as it asks.
ghost use Rattle.std.specs.Prelude.{◌≡◌};
ghost use Rattle.nsc_model.specs.declared.kind.Db.TheVariants as db;
ghost use Rattle.nsc_model.specs.Entry.{kept_limit};
ghost use Rattle.nsc_client.specs.Gate.{AreNamed, ArePasses};

use crate::connection::{WELL, failing, input, output};
use crate::outcome::Outcome;
use crate::texts::{ABSENT, ROOT_BASH};
use nsc_base::{Buf, NoMemory};
use nsc_client::{Asked, Gated, StoreLink, ask, serve_gate};
use nsc_model::{Databases, InPlace, KEPT_LIMIT, Kind, Store};
use nsc_outside::MemSource;
use std::alloc::Global;
use std::sync::Wait;

// Lines of a connection, and what answers them.
const LINES: &[u8] = b"passwd root\nhosts ::1\nservices 22/tcp\npasswd nobody1\nshadow root";

const ANSWERS: &[u8] =
    b"root:x:0:0:root:/root:/bin/bash\n::1 localhost\nssh 22/tcp\nnot found\nbad line\n";

// A line, the front of a second one, and what answers the first.
const CUT: &[u8] = b"passwd root\nhosts ::1";

const FIRST: &[u8] = b"root:x:0:0:root:/root:/bin/bash\n";

// The answers to all lines that have a newline. They are written before more of the input is read.
const ENDED: &[u8] = b"root:x:0:0:root:/root:/bin/bash\n::1 localhost\nssh 22/tcp\nnot found\n";

// How many letters a line has, which is one more than it may have.
const LONG: usize = 1101;

// One of them: what it sends, which of its reads and writes fail, 0 being none, what comes of it, and what it is sent.
#[derive(Clone, Copy, Debug)]
struct Lines {
    lines: &'static [u8],
    read: u64,
    write: u64,
    gated: Gated,
    sent: &'static [u8],
}

const CONNECTIONS: [Lines; 6] = [
    Lines {
        lines: LINES,
        read: 0,
        write: 0,
        gated: Gated::Done { lines: 5 },
        sent: ANSWERS,
    },
    Lines {
        lines: LINES,
        read: 1,
        write: 0,
        gated: Gated::ReadFault,
        sent: b"",
    },
    Lines {
        lines: CUT,
        read: 2,
        write: 0,
        gated: Gated::ReadFault,
        sent: FIRST,
    },
    Lines {
        lines: LINES,
        read: 0,
        write: 1,
        gated: Gated::WriteFault,
        sent: b"",
    },
    Lines {
        lines: LINES,
        read: 0,
        write: 2,
        gated: Gated::WriteFault,
        sent: ENDED,
    },
    Lines {
        lines: b"",
        read: 0,
        write: 0,
        gated: Gated::Done { lines: 0 },
        sent: b"",
    },
];

/// Serves one connection to the gate after another, and then asks for two users as it does: for one who has an entry, and for one who has
/// none.
pub fn connections<R: AllocGlobal + Wait, S: Store>(
    rt: &R,
    stores: &Databases<S>,
    passes: &mut Databases<S::Pass>,
) -> Result<Outcome, NoMemory>
    requires named { AreNamed S.Store stores.now }
    requires passes { ArePasses S.Store stores.now passes.old }
{
    let mut out = Buf::new(rt.alloc(), KEPT_LIMIT)?;
    for (place, connection) in CONNECTIONS.iter().enumerate() {
        if !comes(rt, stores, passes, &mut out, connection)? {
            return Ok(Outcome::Wrong(place + 1));
        }
    }
    if !refuses_long(rt, stores, passes, &mut out)? {
        return Ok(Outcome::Wrong(CONNECTIONS.len() + 1));
    }
    let store = &stores.passwd;
    let pass = &mut passes.passwd;
    if !finds_root(rt, rt.alloc(), store, pass, &mut out) {
        return Ok(Outcome::Wrong(CONNECTIONS.len() + 2));
    }
    if !looks_up(rt, rt.alloc(), store, pass, &mut out) {
        return Ok(Outcome::Wrong(CONNECTIONS.len() + 3));
    }
    Ok(Outcome::Right)
}

// Whether the outcome of a connection is the right one.
fn comes<R: AllocGlobal + Wait, S: Store>(
    rt: &R,
    stores: &Databases<S>,
    passes: &mut Databases<S::Pass>,
    out: &mut Buf,
    connection: &Lines,
) -> Result<bool, NoMemory>
    requires named { AreNamed S.Store stores.now }
    requires passes { ArePasses S.Store stores.now passes.old }
    requires limit { out.old.limit ≡ kept_limit }
    ensures passes { ArePasses S.Store stores.now passes.new }
    ensures limit { out.new.limit ≡ kept_limit }
{
    let mut input = input(rt.alloc(), connection.lines, failing(connection.read))?;
    let mut output = output(rt.alloc(), failing(connection.write))?;
    let gated = serve_gate(rt, stores, passes, out, &mut input, &mut output, 0);
    Ok(gated == connection.gated && output.taken() == connection.sent)
}

// Whether a line that is too long is refused, and nothing written for it.
fn refuses_long<R: AllocGlobal + Wait, S: Store>(
    rt: &R,
    stores: &Databases<S>,
    passes: &mut Databases<S::Pass>,
    out: &mut Buf,
) -> Result<bool, NoMemory>
    requires named { AreNamed S.Store stores.now }
    requires passes { ArePasses S.Store stores.now passes.old }
    requires limit { out.old.limit ≡ kept_limit }
    ensures passes { ArePasses S.Store stores.now passes.new }
    ensures limit { out.new.limit ≡ kept_limit }
{
    let alloc = rt.alloc();
    let mut input = MemSource::new(vec![in alloc; b'a'; LONG]?);
    let mut output = output(alloc, WELL)?;
    let gated = serve_gate(rt, stores, passes, out, &mut input, &mut output, 0);
    Ok(
        gated
            == Gated::TooLongLine {
                length: LONG as u64,
            }
            && output.taken().is_empty(),
    )
}

// Whether root, the first user whom the gate asked for, is found in place.
fn finds_root<R: Wait, S: Store>(
    rt: &R,
    alloc: Global,
    store: &S,
    pass: &mut S::Pass,
    out: &mut Buf,
) -> bool
    requires pass { S.is_pass store.now pass.old }
    requires users { S.db store.now ≡ db.Passwd }
    requires limit { out.old.limit ≡ kept_limit }
    ensures pass { S.is_pass store.now pass.new }
    ensures limit { out.new.limit ≡ kept_limit }
{
    let asked = ask(
        rt,
        alloc,
        pass,
        store,
        &mut StoreLink { store },
        out,
        Kind::PwName,
        b"root",
        0,
    );
    let is_first = matches!(
        &asked,
        Ok(Asked::InPlace {
            number: 0,
            version: 0,
        },)
    );
    is_first && out.bytes() == ROOT_BASH
}

// Whether a user for whom nobody asked so far is looked up.
fn looks_up<R: Wait, S: Store>(
    rt: &R,
    alloc: Global,
    store: &S,
    pass: &mut S::Pass,
    out: &mut Buf,
) -> bool
    requires pass { S.is_pass store.now pass.old }
    requires users { S.db store.now ≡ db.Passwd }
    requires limit { out.old.limit ≡ kept_limit }
{
    let asked = ask(
        rt,
        alloc,
        pass,
        store,
        &mut StoreLink { store },
        out,
        Kind::PwName,
        b"ann",
        0,
    );
    match asked {
        Ok(Asked::Linked { after, bytes }) => {
            after == InPlace::NoEntry && bytes.as_slice() == ABSENT && out.bytes().is_empty()
        }
        _ => false,
    }
}
