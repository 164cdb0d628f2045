// Whether a node of the request is usable, and its reply.
ghost use Rattle.std.specs.Prelude.{◌≡◌, ℕ, ◌+◌, ◌-◌, ◌*◌, ◌≤◌, List, length};
ghost use Rattle.nsc_model.specs.Entry.{kept_limit};
ghost use Rattle.nsc_words.specs.Layout.{table_words};
ghost use Rattle.nsc_reader.specs.Stages.{AtNumber, AtReply, AtSize, AtStage, AtState, AtVersion, Comes, Goes, asked, left_at, reply_in};

use crate::stage::Stage;
use nsc_base::Buf;
use nsc_model::{InPlace, KEPT_LIMIT};
use nsc_rule::{Map, Pass};
use nsc_words::{KEY, NUMBER, RELOADS, SIZE, STATE, VERSION, size_len, size_not_found};

// How many bytes of a reply are put into the buffer at once, and how many words that is.
const BLOCK: usize = 64;

const BLOCK_WORDS: usize = 8;

// Loads RELOADS, and says whether it is not 0. Nothing is promised of that.
pub(crate) fn load_reloads(pass: &mut Pass, map: &Map, place: usize) -> bool
    requires map { map.now.table ≡ pass.old.table }
    requires at { AtState map.now.layout place pass.old }
    ensures comes { (content : List ℕ) → Comes map.now.layout pass.old pass.new content (20000 * place + 9004) (Stage.State place) }
{
    map.layout();
    pass.fixed(map, place + RELOADS) != 0
}

// Loads it where STATE is the next step and the search looks at it. The search stays at its stage.
pub(crate) fn past_reloads(stage: Stage, pass: &mut Pass, map: &Map, looks: bool) -> bool
    ghost content: { List ℕ }
    requires map { map.now.table ≡ pass.old.table }
    requires at { AtStage map.now.layout content stage pass.old }
    ensures comes { Comes map.now.layout pass.old pass.new content (left_at map.now.layout stage) stage }
{
    if looks {
        if let Stage::State { place } = stage {
            return load_reloads(pass, map, place);
        }
    }
    false
}

// Loads STATE.
pub(crate) fn load_state(pass: &mut Pass, map: &Map, place: usize) -> Stage
    requires map { map.now.table ≡ pass.old.table }
    requires at { AtState map.now.layout place pass.old }
    ensures goes { (content : List ℕ) → Goes map.now.layout pass.old pass.new content (20000 * place + 9004) result }
{
    map.layout();
    if pass.state(map, place + STATE) == 1 {
        Stage::Size { place }
    } else {
        Stage::Next { place }
    }
}

// Loads it where that is the next step.
pub(crate) fn past_state(stage: Stage, pass: &mut Pass, map: &Map) -> Stage
    ghost content: { List ℕ }
    requires map { map.now.table ≡ pass.old.table }
    requires at { AtStage map.now.layout content stage pass.old }
    ensures comes { Comes map.now.layout pass.old pass.new content (left_at map.now.layout stage) result }
{
    match stage {
        Stage::State { place } => load_state(pass, map, place),
        other => other,
    }
}

// Loads SIZE.
pub(crate) fn load_size(pass: &mut Pass, map: &Map, key: &[u8], place: usize) -> Stage
    requires map { map.now.table ≡ pass.old.table }
    requires key { pass.old.searching.request.key ≡ key.now }
    requires at { AtSize map.now.layout place pass.old }
    ensures goes { (content : List ℕ) → Goes map.now.layout pass.old pass.new content (20000 * place + 9003) result }
{
    let words = map.layout().words();
    let size = pass.fixed(map, place + SIZE);
    let len = size_len(size) as usize;
    if len > KEPT_LIMIT || len.div_ceil(8) > words - place - KEY - key.len().div_ceil(8) {
        return Stage::Last {
            answer: InPlace::NoEntry,
        };
    }
    Stage::Number { place, size }
}

// Loads it where that is the next step.
pub(crate) fn past_size(stage: Stage, pass: &mut Pass, map: &Map, key: &[u8]) -> Stage
    ghost content: { List ℕ }
    requires map { map.now.table ≡ pass.old.table }
    requires key { pass.old.searching.request.key ≡ key.now }
    requires at { AtStage map.now.layout content stage pass.old }
    ensures comes { Comes map.now.layout pass.old pass.new content (left_at map.now.layout stage) result }
{
    match stage {
        Stage::Size { place } => load_size(pass, map, key, place),
        other => other,
    }
}

// Loads NUMBER.
pub(crate) fn load_number(pass: &mut Pass, map: &Map, place: usize, size: u64) -> Stage
    requires map { map.now.table ≡ pass.old.table }
    requires at { AtNumber map.now.layout place size pass.old }
    ensures goes { (content : List ℕ) → Goes map.now.layout pass.old pass.new content (20000 * place + 9002) result }
{
    map.layout();
    let number = pass.fixed(map, place + NUMBER);
    Stage::Version {
        place,
        size,
        number,
    }
}

// Loads it where that is the next step.
pub(crate) fn past_number(stage: Stage, pass: &mut Pass, map: &Map) -> Stage
    ghost content: { List ℕ }
    requires map { map.now.table ≡ pass.old.table }
    requires at { AtStage map.now.layout content stage pass.old }
    ensures comes { Comes map.now.layout pass.old pass.new content (left_at map.now.layout stage) result }
{
    match stage {
        Stage::Number { place, size } => load_number(pass, map, place, size),
        other => other,
    }
}

// Loads VERSION, and empties the buffer.
pub(crate) fn load_version(
    pass: &mut Pass,
    map: &Map,
    out: &mut Buf,
    place: usize,
    size: u64,
    number: u64,
) -> Stage
    requires map { map.now.table ≡ pass.old.table }
    requires at { AtVersion map.now.layout place size number pass.old }
    ensures goes { Goes map.now.layout pass.old pass.new out.new.content (20000 * place + 9001) result }
    ensures limit { out.new.limit ≡ out.old.limit }
{
    map.layout();
    let version = pass.fixed(map, place + VERSION);
    out.clear();
    if size_len(size) == 0 {
        return Stage::Last {
            answer: InPlace::Hit {
                number,
                version,
                not_found: size_not_found(size),
            },
        };
    }
    Stage::Reply {
        place,
        size,
        number,
        version,
        copied: 0,
    }
}

// Loads it where that is the next step.
pub(crate) fn past_version(stage: Stage, pass: &mut Pass, map: &Map, out: &mut Buf) -> Stage
    requires map { map.now.table ≡ pass.old.table }
    requires at { AtStage map.now.layout out.old.content stage pass.old }
    ensures comes { Comes map.now.layout pass.old pass.new out.new.content (left_at map.now.layout stage) result }
    ensures limit { out.new.limit ≡ out.old.limit }
{
    match stage {
        Stage::Version {
            place,
            size,
            number,
        } => load_version(pass, map, out, place, size, number),
        other => other,
    }
}

// Loads the next word of the reply, and puts its bytes into the buffer.
pub(crate) fn load_reply(
    pass: &mut Pass,
    map: &Map,
    key: &[u8],
    out: &mut Buf,
    place: usize,
    size: u64,
    number: u64,
    version: u64,
    copied: usize,
) -> Stage
    requires map { map.now.table ≡ pass.old.table }
    requires key { pass.old.searching.request.key ≡ key.now }
    requires limit { out.old.limit ≡ kept_limit }
    requires at { AtReply map.now.layout place size number version copied out.old.content pass.old }
    ensures goes { Goes map.now.layout pass.old pass.new out.new.content (20000 * place + 9000 - copied) result }
    ensures limit { out.new.limit ≡ out.old.limit }
{
    map.layout();
    let len = size_len(size) as usize;
    let word = pass.fixed(map, place + KEY + key.len().div_ceil(8) + copied);
    let count = (len - 8 * copied).min(8);
    out.push(&word.to_le_bytes()[..count]);
    if copied + 1 < len.div_ceil(8) {
        Stage::Reply {
            place,
            size,
            number,
            version,
            copied: copied + 1,
        }
    } else {
        Stage::Last {
            answer: InPlace::Hit {
                number,
                version,
                not_found: size_not_found(size),
            },
        }
    }
}

// Loads the next words of the reply, as many as a block has, and puts their bytes into the buffer.
fn load_block(
    pass: &mut Pass,
    map: &Map,
    key: &[u8],
    out: &mut Buf,
    place: usize,
    size: u64,
    number: u64,
    version: u64,
    copied: usize,
) -> Stage
    requires map { map.now.table ≡ pass.old.table }
    requires key { pass.old.searching.request.key ≡ key.now }
    requires limit { out.old.limit ≡ kept_limit }
    requires at { AtReply map.now.layout place size number version copied out.old.content pass.old }
    ensures comes { Comes map.now.layout pass.old pass.new out.new.content (20000 * place + 8999 - copied) result }
    ensures limit { out.new.limit ≡ out.old.limit }
{
    map.layout();
    let len = size_len(size) as usize;
    let from = place + KEY + key.len().div_ceil(8) + copied;
    let count = (len.div_ceil(8) - copied).min(BLOCK_WORDS);
    let mut block = [0; BLOCK];
    for index in 0..count {
        let word = pass.fixed(map, from + index);
        block[8 * index..8 * index + 8].copy_from_slice(&word.to_le_bytes());
    }
    out.push(&block[..(len - 8 * copied).min(BLOCK)]);
    if copied + count < len.div_ceil(8) {
        Stage::Reply {
            place,
            size,
            number,
            version,
            copied: copied + count,
        }
    } else {
        Stage::Last {
            answer: InPlace::Hit {
                number,
                version,
                not_found: size_not_found(size),
            },
        }
    }
}

// Loads the words of the reply that are left, where that is the next step.
pub(crate) fn past_reply(
    stage: Stage,
    pass: &mut Pass,
    map: &Map,
    key: &[u8],
    out: &mut Buf,
) -> Stage
    requires map { map.now.table ≡ pass.old.table }
    requires key { pass.old.searching.request.key ≡ key.now }
    requires limit { out.old.limit ≡ kept_limit }
    requires at { AtStage map.now.layout out.old.content stage pass.old }
    ensures comes { Comes map.now.layout pass.old pass.new out.new.content (left_at map.now.layout stage) result }
    ensures limit { out.new.limit ≡ out.old.limit }
{
    let mut next = stage;
    'blocks: loop {
        match next {
            Stage::Reply {
                place,
                size,
                number,
                version,
                copied,
            } => {
                next = load_block(pass, map, key, out, place, size, number, version, copied);
            }
            other => return other,
        }
    }
}
