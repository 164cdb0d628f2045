// The test of a link over a socket: one reply, and then a failure.
use nsc_base::Bytes;
use nsc_client::{Link, LinkFault, SocketLink};
use nsc_model::Kind;
use nsc_sockets::CalmListener;
use std::alloc::Global;
use std::sync::Wait;
use std::test::Fail;

// The reply that has root.
const ROOT: &[u8] =
    b"\x02\0\0\0\x01\0\0\0\x05\0\0\0\x02\0\0\0\0\0\0\0\0\0\0\0\x05\0\0\0\x06\0\0\0\x0a\0\0\0root\0x\0root\0/root\0/bin/bash\0";

// Whether a lookup of root over a link is answered by this reply.
fn gives<R: Wait>(
    rt: &R,
    alloc: Global,
    link: &mut SocketLink<'_, CalmListener>,
    reply: &[u8],
) -> bool {
    match link.call(rt, alloc, &mut (), Kind::PwName, b"root", 0) {
        Ok(bytes) => bytes.as_slice() == reply,
        Err(_) => false,
    }
}

// One peer is reached, and after it nobody is.
#[test]
fn replies_over_a_socket(rt: HostRuntime) -> Result<(), Fail> {
    let alloc = rt.alloc();
    let peers = vec![in alloc; Bytes::copy(alloc, ROOT)?]?;
    let mut link = SocketLink::new(CalmListener::new(peers), "/run/s");
    assert!(rt; gives(&rt, alloc, &mut link, ROOT));
    let again = link.call(&rt, alloc, &mut (), Kind::PwName, b"root", 0);
    assert!(rt; matches!(again, Err(LinkFault::Failed)));
    Ok(())
}
