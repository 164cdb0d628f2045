// The first and the last load of a search.
ghost use Rattle.std.specs.Prelude.{◌≡◌, ◌+◌, Some};
ghost use Rattle.atomic_table.specs.Seated.{TableId};
ghost use Rattle.nsc_model.specs.declared.answer.Request.{Request};
ghost use Rattle.nsc_model.specs.InPlace.{InPlaceClause};
ghost use Rattle.nsc_reader.specs.Stages.{AtLast, SaysOdd, Keeps, Steps, answer_in, asked};

use crate::stage::{Progress, Stage};
use nsc_base::Buf;
use nsc_model::{InPlace, Kind};
use nsc_rule::{Map, Pass};
use nsc_words::hash;

// Loads CYCLE for the first time, and empties the buffer. While CYCLE is odd, a compaction is under way, and nothing more is loaded.
pub(crate) fn load_first(
    kind: Kind,
    key: &[u8],
    pass: &mut Pass,
    map: &Map,
    out: &mut Buf,
) -> Progress
    ghost request: { Request }
    requires map { map.now.table ≡ pass.old.table }
    requires request { request ≡ asked kind key.now }
    ensures steps { Steps map.now.layout request Progress.New pass.old pass.new out.new.content result }
    ensures left { (newer : TableId) → pass.old.retired ≡ Some newer → SaysOdd (answer_in result) }
    ensures limit { out.new.limit ≡ out.old.limit }
{
    let first = pass.first_cycle(map);
    out.clear();
    if first % 2 == 1 {
        return Progress::Answered {
            answer: InPlace::Odd { cycle: first },
        };
    }
    let bucket = map.layout().bucket(hash(kind.number(), key));
    Progress::Under {
        first,
        stage: Stage::Bucket { bucket },
    }
}

// Loads CYCLE for the last time. Where it is still what it was, all that the search has read stood together.
pub(crate) fn load_last(
    pass: &mut Pass,
    map: &Map,
    out: &mut Buf,
    first: u64,
    answer: InPlace,
) -> InPlace
    requires map { map.now.table ≡ pass.old.table }
    requires first { pass.old.searching.first ≡ first }
    requires at { AtLast out.old.content answer pass.old }
    ensures keeps { Keeps pass.old pass.new }
    ensures steps { pass.new.searching.steps ≡ pass.old.searching.steps + 1 }
    ensures answer { InPlaceClause pass.new.searching.began pass.new.seen pass.new.searching.request pass.new.searching.first pass.new.searching.last out.new.content result }
    ensures limit { out.new.limit ≡ out.old.limit }
{
    let last = pass.last_cycle(map);
    pass.learn();
    if last != first {
        out.clear();
        return InPlace::Moved {
            from: first,
            to: last,
        };
    }
    if let InPlace::NoEntry = answer {
        out.clear();
        return InPlace::NoEntry;
    }
    answer
}
