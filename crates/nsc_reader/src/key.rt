// Whether a node is of the request: its kind, the length of its key, and the key's words.
ghost use Rattle.std.specs.Prelude.{◌≡◌, ℕ, ◌+◌, ◌-◌, ◌*◌, ◌≤◌, List, length};
ghost use Rattle.nsc_model.specs.Entry.{key_limit};
ghost use Rattle.nsc_words.specs.Layout.{table_words};
ghost use Rattle.nsc_reader.specs.Stages.{AtFirstWord, AtKeyWord, AtShape, AtStage, Comes, Goes, asked, left_at};

use crate::stage::Stage;
use nsc_model::{InPlace, Kind};
use nsc_rule::{Map, Pass};
use nsc_words::{KEY, SHAPE, shape, word_of};

// Loads the first word of the key.
pub(crate) fn load_first_word(pass: &mut Pass, map: &Map, key: &[u8], place: usize) -> Stage
    requires map { map.now.table ≡ pass.old.table }
    requires key { pass.old.searching.request.key ≡ key.now }
    requires at { AtFirstWord map.now.layout place pass.old }
    ensures goes { (content : List ℕ) → Goes map.now.layout pass.old pass.new content (20000 * place + 9500) result }
{
    map.layout();
    if pass.fixed(map, place + KEY) == word_of(key, 0) {
        Stage::Shape { place, compared: 1 }
    } else {
        Stage::Next { place }
    }
}

// Loads it where that is the next step.
pub(crate) fn past_first_word(stage: Stage, pass: &mut Pass, map: &Map, key: &[u8]) -> Stage
    ghost content: { List ℕ }
    requires map { map.now.table ≡ pass.old.table }
    requires key { pass.old.searching.request.key ≡ key.now }
    requires at { AtStage map.now.layout content stage pass.old }
    ensures comes { Comes map.now.layout pass.old pass.new content (left_at map.now.layout stage) result }
{
    match stage {
        Stage::FirstWord { place } => load_first_word(pass, map, key, place),
        other => other,
    }
}

// Loads SHAPE.
pub(crate) fn load_shape(
    kind: Kind,
    pass: &mut Pass,
    map: &Map,
    key: &[u8],
    place: usize,
    compared: usize,
) -> Stage
    requires map { map.now.table ≡ pass.old.table }
    requires request { pass.old.searching.request ≡ asked kind key.now }
    requires size { length key.now ≤ key_limit }
    requires at { AtShape map.now.layout place compared pass.old }
    ensures goes { (content : List ℕ) → Goes map.now.layout pass.old pass.new content (20000 * place + 9400) result }
{
    let words = map.layout().words();
    if pass.fixed(map, place + SHAPE) != shape(kind.number(), key.len() as u32) {
        return Stage::Next { place };
    }
    let count = key.len().div_ceil(8);
    if count > words - place - KEY {
        return Stage::Last {
            answer: InPlace::NoEntry,
        };
    }
    if compared < count {
        Stage::KeyWord { place, compared }
    } else {
        Stage::State { place }
    }
}

// Loads it where that is the next step.
pub(crate) fn past_shape(kind: Kind, stage: Stage, pass: &mut Pass, map: &Map, key: &[u8]) -> Stage
    ghost content: { List ℕ }
    requires map { map.now.table ≡ pass.old.table }
    requires request { pass.old.searching.request ≡ asked kind key.now }
    requires size { length key.now ≤ key_limit }
    requires at { AtStage map.now.layout content stage pass.old }
    ensures comes { Comes map.now.layout pass.old pass.new content (left_at map.now.layout stage) result }
{
    match stage {
        Stage::Shape { place, compared } => load_shape(kind, pass, map, key, place, compared),
        other => other,
    }
}

// Loads the next word of the key.
pub(crate) fn load_key_word(
    pass: &mut Pass,
    map: &Map,
    key: &[u8],
    place: usize,
    compared: usize,
) -> Stage
    requires map { map.now.table ≡ pass.old.table }
    requires key { pass.old.searching.request.key ≡ key.now }
    requires size { length key.now ≤ key_limit }
    requires at { AtKeyWord map.now.layout place compared pass.old }
    ensures goes { (content : List ℕ) → Goes map.now.layout pass.old pass.new content (20000 * place + 9300 - compared) result }
{
    map.layout();
    if pass.fixed(map, place + KEY + compared) != word_of(key, compared) {
        return Stage::Next { place };
    }
    if compared + 1 < key.len().div_ceil(8) {
        Stage::KeyWord {
            place,
            compared: compared + 1,
        }
    } else {
        Stage::State { place }
    }
}

// Loads the words of the key that are left, where that is the next step.
pub(crate) fn past_key_words(stage: Stage, pass: &mut Pass, map: &Map, key: &[u8]) -> Stage
    ghost content: { List ℕ }
    requires map { map.now.table ≡ pass.old.table }
    requires key { pass.old.searching.request.key ≡ key.now }
    requires size { length key.now ≤ key_limit }
    requires at { AtStage map.now.layout content stage pass.old }
    ensures comes { Comes map.now.layout pass.old pass.new content (left_at map.now.layout stage) result }
{
    let mut next = stage;
    'words: loop {
        match next {
            Stage::KeyWord { place, compared } => {
                next = load_key_word(pass, map, key, place, compared);
            }
            other => return other,
        }
    }
}
