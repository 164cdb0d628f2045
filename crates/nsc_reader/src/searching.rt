// `search` and `seek`: whole searches without a lock.
ghost use Rattle.std.specs.Prelude.{◌≡◌, ◌+◌, ◌≤◌, Some, length};
ghost use Rattle.atomic_table.specs.Seated.{TableId};
ghost use Rattle.nsc_model.specs.Entry.{key_limit, kept_limit};
ghost use Rattle.nsc_model.specs.History.{IsPrefix, Legal};
ghost use Rattle.nsc_model.specs.InPlace.{InPlaceClause, IsOdd};
ghost use Rattle.nsc_reader.specs.Stages.{asked};

use crate::walk::Walk;
use nsc_base::Buf;
use nsc_model::{InPlace, Kind, Sought};
use nsc_rule::{Map, Pass};

/// Searches for the newest usable entry of this kind and key while the one who writes goes on. It takes the steps of a walk until that
/// answers, and no lock, no memory and no runtime. It answers `Odd` where the pass has seen that another table goes on in place of these
/// words.
pub fn search(pass: &mut Pass, map: &Map, kind: Kind, key: &[u8], out: &mut Buf) -> InPlace
    requires map { map.now.table ≡ pass.old.table }
    requires key { length key.now ≤ key_limit }
    requires limit { out.old.limit ≡ kept_limit }
    ensures table { pass.new.table ≡ pass.old.table }
    ensures limit { out.new.limit ≡ out.old.limit }
    ensures before { IsPrefix pass.old.seen pass.new.seen }
    ensures searches { pass.new.searching.searches ≡ pass.old.searching.searches + 1 }
    ensures answer { InPlaceClause pass.old.seen pass.new.seen (asked kind key.now) pass.new.searching.first pass.new.searching.last out.new.content result }
    ensures left { (newer : TableId) → pass.old.retired ≡ Some newer → IsOdd result }
{
    walk_on(pass, map, kind, key, out, false).answer
}

/// Searches as `search` does, and says whether the entry that answers was loaded again since it was used last. Nothing is promised of
/// that.
pub fn seek(pass: &mut Pass, map: &Map, kind: Kind, key: &[u8], out: &mut Buf) -> Sought
    requires map { map.now.table ≡ pass.old.table }
    requires key { length key.now ≤ key_limit }
    requires limit { out.old.limit ≡ kept_limit }
    ensures table { pass.new.table ≡ pass.old.table }
    ensures limit { out.new.limit ≡ out.old.limit }
    ensures before { IsPrefix pass.old.seen pass.new.seen }
    ensures searches { pass.new.searching.searches ≡ pass.old.searching.searches + 1 }
    ensures answer { InPlaceClause pass.old.seen pass.new.seen (asked kind key.now) pass.new.searching.first pass.new.searching.last out.new.content result.answer }
    ensures left { (newer : TableId) → pass.old.retired ≡ Some newer → IsOdd result.answer }
{
    walk_on(pass, map, kind, key, out, true)
}

// Takes the steps of a walk until that answers. Looks at the RELOADS of each node of the request, where it is to, and keeps what the
// latest node told.
fn walk_on(pass: &mut Pass, map: &Map, kind: Kind, key: &[u8], out: &mut Buf, looks: bool) -> Sought
    requires map { map.now.table ≡ pass.old.table }
    requires key { length key.now ≤ key_limit }
    requires limit { out.old.limit ≡ kept_limit }
    ensures table { pass.new.table ≡ pass.old.table }
    ensures limit { out.new.limit ≡ out.old.limit }
    ensures before { IsPrefix pass.old.seen pass.new.seen }
    ensures searches { pass.new.searching.searches ≡ pass.old.searching.searches + 1 }
    ensures answer { InPlaceClause pass.old.seen pass.new.seen (asked kind key.now) pass.new.searching.first pass.new.searching.last out.new.content result.answer }
    ensures left { (newer : TableId) → pass.old.retired ≡ Some newer → IsOdd result.answer }
{
    let mut walk = Walk::new(kind);
    if let Some(answer) = walk.step(pass, map, key, out) {
        return Sought {
            answer,
            is_reloaded: false,
        };
    }
    'walk: loop {
        let is_reloaded = walk.past_node(pass, map, key, out, looks);
        if let Some(answer) = walk.step(pass, map, key, out) {
            return Sought {
                answer,
                is_reloaded,
            };
        }
    }
}
