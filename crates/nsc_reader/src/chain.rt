// Along the chain of a bucket.
ghost use Rattle.std.specs.Prelude.{◌≡◌, ℕ, ◌+◌, ◌*◌, ◌<◌, ◌≤◌, List, length};
ghost use Rattle.nsc_words.specs.Layout.{IsLayout, table_words};
ghost use Rattle.nsc_rule.specs.Pass.{Pass};
ghost use Rattle.nsc_reader.specs.Stages.{Arrives, AtBucket, AtNext, AtStage, Comes, Goes, left_at};

use crate::stage::Stage;
use nsc_model::InPlace;
use nsc_rule::{Map, Pass};
use nsc_words::{KEY, Layout, NEXT};

// Loads the word of the bucket.
pub(crate) fn load_bucket(pass: &mut Pass, map: &Map, key: &[u8], bucket: usize) -> Stage
    requires map { map.now.table ≡ pass.old.table }
    requires key { pass.old.searching.request.key ≡ key.now }
    requires at { AtBucket map.now.layout bucket pass.old }
    ensures goes { (content : List ℕ) → Goes map.now.layout pass.old pass.new content (20000 * table_words map.now.layout) result }
{
    let layout = map.layout();
    let found = pass.bucket(map, bucket);
    arrive(layout, found, key)
}

// Loads it where that is the next step.
pub(crate) fn past_bucket(stage: Stage, pass: &mut Pass, map: &Map, key: &[u8]) -> Stage
    ghost content: { List ℕ }
    requires map { map.now.table ≡ pass.old.table }
    requires key { pass.old.searching.request.key ≡ key.now }
    requires at { AtStage map.now.layout content stage pass.old }
    ensures comes { Comes map.now.layout pass.old pass.new content (left_at map.now.layout stage) result }
{
    match stage {
        Stage::Bucket { bucket } => load_bucket(pass, map, key, bucket),
        other => other,
    }
}

// Loads NEXT. It must be below the place of the node.
pub(crate) fn load_next(pass: &mut Pass, map: &Map, key: &[u8], place: usize) -> Stage
    requires map { map.now.table ≡ pass.old.table }
    requires key { pass.old.searching.request.key ≡ key.now }
    requires at { AtNext map.now.layout place pass.old }
    ensures goes { (content : List ℕ) → Goes map.now.layout pass.old pass.new content (20000 * place + 2) result }
{
    let layout = map.layout();
    let found = pass.next(map, place + NEXT);
    if found >= place as u64 {
        return Stage::Last {
            answer: InPlace::NoEntry,
        };
    }
    arrive(layout, found, key)
}

// What is loaded first where a word of a chain leads.
fn arrive(layout: Layout, found: u64, key: &[u8]) -> Stage
    requires { IsLayout layout }
    ensures at { (content : List ℕ) (p : Pass) → p.searching.request.key ≡ key.now → Arrives layout found p → AtStage layout content result p }
    ensures fewer { left_at layout result < 20000 * table_words layout }
    ensures lower { (place : ℕ) → found < place → left_at layout result < 20000 * place + 2 }
{
    let words = layout.words();
    if found == 0 || found > (words - 8) as u64 {
        return Stage::Last {
            answer: InPlace::NoEntry,
        };
    }
    let place = found as usize;
    if key.is_empty() || place + KEY >= words {
        return Stage::Shape { place, compared: 0 };
    }
    Stage::FirstWord { place }
}
