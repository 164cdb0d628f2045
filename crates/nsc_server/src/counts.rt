// The statistics of the four databases, from their stores.
ghost use Rattle.std.specs.Prelude.{IfOk};
ghost use Rattle.nsc_server.specs.Outcomes.{AreCounts};
ghost use Rattle.nsc_server.specs.Passes.{ArePasses, SawMore, passes_at, settings_of};

use nsc_base::NoMemory;
use nsc_model::{Databases, Stats, Store};
use std::sync::Wait;

// What the four databases count.
pub(crate) fn all_stats<R: Wait, S: Store>(
    rt: &R,
    stores: &Databases<S>,
    passes: &mut Databases<S::Pass>,
) -> Result<[Stats; 4], NoMemory>
    requires { ArePasses S.Store stores.now passes.old }
    ensures passes { ArePasses S.Store stores.now passes.new }
    ensures before { SawMore (passes_at S.Store passes.old) (passes_at S.Store passes.new) }
    ensures counted { IfOk result (AreCounts (settings_of S.Store stores.now) (passes_at S.Store passes.new)) }
{
    let passwd = stores.passwd.stats(rt, &mut passes.passwd)?;
    let group = stores.group.stats(rt, &mut passes.group)?;
    let hosts = stores.hosts.stats(rt, &mut passes.hosts)?;
    let services = stores.services.stats(rt, &mut passes.services)?;
    Ok([passwd, group, hosts, services])
}
