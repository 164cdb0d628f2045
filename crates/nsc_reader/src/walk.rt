// `Walk`: a search without a lock, step by step.
ghost use Rattle.std.specs.Prelude.{◌≡◌, ◌≤◌, List, ℕ, Some, length};
ghost use Rattle.atomic_table.specs.Seated.{TableId};
ghost use Rattle.nsc_model.specs.Entry.{key_limit, kept_limit};
ghost use Rattle.nsc_reader.specs.Stages.{AtStage, Comes, HasCome, SaysOdd, IsOpen, Nears, Steps, answer_in, asked, left_at};

use crate::chain::{load_bucket, load_next, past_bucket};
use crate::ends::{load_first, load_last};
use crate::key::{
    load_first_word, load_key_word, load_shape, past_first_word, past_key_words, past_shape,
};
use crate::reply::{
    load_number, load_reply, load_size, load_state, load_version, past_number, past_reloads,
    past_reply, past_size, past_state, past_version,
};
use crate::stage::{Progress, Stage};
use nsc_base::Buf;
use nsc_model::{InPlace, Kind};
use nsc_rule::{Map, Pass};

/// A search without a lock, step by step. It walks the chain of the request's bucket from the newest entry on, and copies the reply of the
/// first usable one that has its kind and its key.
#[derive(Clone, Copy, Debug, PartialEq, Eq)]
pub struct Walk {
    // What is asked.
    kind: Kind,
    // How far it has come.
    progress: Progress,
}

impl Walk {
    /// A walk that has taken no step.
    pub fn new(kind: Kind) -> Walk
        ensures { result ≡ record { kind = kind; progress = Progress.New } }
    {
        Walk {
            kind,
            progress: Progress::New,
        }
    }

    /// Takes one step, which loads one word. Gives the answer where this was the last one. The pass, the key and the buffer are those of the
    /// steps before, as these left them. The first step answers where the pass has seen that another table goes on in place of these
    /// words. It takes no memory.
    pub fn step(&mut self, pass: &mut Pass, map: &Map, key: &[u8], out: &mut Buf) -> Option<InPlace>
        requires map { map.now.table ≡ pass.old.table }
        requires key { length key.now ≤ key_limit }
        requires limit { out.old.limit ≡ kept_limit }
        requires open { IsOpen self.old.progress }
        requires stands { HasCome map.now.layout (asked self.old.kind key.now) out.old.content pass.old self.old.progress }
        ensures kind { self.new.kind ≡ self.old.kind }
        ensures limit { out.new.limit ≡ out.old.limit }
        ensures steps { Steps map.now.layout (asked self.old.kind key.now) self.old.progress pass.old pass.new out.new.content self.new.progress }
        ensures answer { result ≡ answer_in self.new.progress }
        ensures left { self.old.progress ≡ Progress.New → (newer : TableId) → pass.old.retired ≡ Some newer → SaysOdd result }
    {
        self.progress = match self.progress {
            Progress::New => load_first(self.kind, key, pass, map, out),
            Progress::Under { first, stage } => go_on(self.kind, first, stage, pass, map, key, out),
            Progress::Answered { answer } => Progress::Answered { answer },
        };
        answer_of(self.progress)
    }

    /// Takes the steps of the node where it stands, up to the one that leaves the node or answers. They come in one order, so that none
    /// costs a look at which is next; the words of a reply go into the buffer by blocks. Where it looks at RELOADS, it loads that word
    /// right before STATE, and says whether it is not 0. Nothing is promised of that.
    pub(crate) fn past_node(
        &mut self,
        pass: &mut Pass,
        map: &Map,
        key: &[u8],
        out: &mut Buf,
        looks: bool,
    ) -> bool
        ghost content: { List ℕ }
        requires map { map.now.table ≡ pass.old.table }
        requires key { length key.now ≤ key_limit }
        requires limit { out.old.limit ≡ kept_limit }
        requires content { out.old.content ≡ content }
        requires stands { HasCome map.now.layout (asked self.old.kind key.now) content pass.old self.old.progress }
        ensures kind { self.new.kind ≡ self.old.kind }
        ensures limit { out.new.limit ≡ out.old.limit }
        ensures nears { Nears map.now.layout (asked self.old.kind key.now) self.old.progress pass.old pass.new out.new.content self.new.progress }
    {
        if let Progress::Under { first, stage } = self.progress {
            let stage = past_key(self.kind, stage, pass, map, key);
            let is_reloaded = past_reloads(stage, pass, map, looks);
            let stage = past_answer(stage, pass, map, key, out);
            self.progress = Progress::Under { first, stage };
            return is_reloaded;
        }
        false
    }
}

// Takes the steps that compare the key of a node, as long as it is the request's.
fn past_key(kind: Kind, stage: Stage, pass: &mut Pass, map: &Map, key: &[u8]) -> Stage
    ghost content: { List ℕ }
    requires map { map.now.table ≡ pass.old.table }
    requires request { pass.old.searching.request ≡ asked kind key.now }
    requires size { length key.now ≤ key_limit }
    requires at { AtStage map.now.layout content stage pass.old }
    ensures comes { Comes map.now.layout pass.old pass.new content (left_at map.now.layout stage) result }
{
    let stage = past_bucket(stage, pass, map, key);
    let stage = past_first_word(stage, pass, map, key);
    let stage = past_shape(kind, stage, pass, map, key);
    past_key_words(stage, pass, map, key)
}

// Takes the steps that read the answer of a node, if it is usable.
fn past_answer(stage: Stage, pass: &mut Pass, map: &Map, key: &[u8], out: &mut Buf) -> Stage
    ghost content: { List ℕ }
    requires map { map.now.table ≡ pass.old.table }
    requires key { pass.old.searching.request.key ≡ key.now }
    requires limit { out.old.limit ≡ kept_limit }
    requires content { out.old.content ≡ content }
    requires at { AtStage map.now.layout content stage pass.old }
    ensures comes { Comes map.now.layout pass.old pass.new out.new.content (left_at map.now.layout stage) result }
    ensures limit { out.new.limit ≡ out.old.limit }
{
    let stage = past_state(stage, pass, map);
    let stage = past_size(stage, pass, map, key);
    let stage = past_number(stage, pass, map);
    let stage = past_version(stage, pass, map, out);
    past_reply(stage, pass, map, key, out)
}

// The answer, where there is one.
fn answer_of(progress: Progress) -> Option<InPlace>
    ensures { result ≡ answer_in progress }
{
    match progress {
        Progress::New => None,
        Progress::Under { .. } => None,
        Progress::Answered { answer } => Some(answer),
    }
}

// Takes one step of a search under way.
fn go_on(
    kind: Kind,
    first: u64,
    stage: Stage,
    pass: &mut Pass,
    map: &Map,
    key: &[u8],
    out: &mut Buf,
) -> Progress
    requires map { map.now.table ≡ pass.old.table }
    requires key { length key.now ≤ key_limit }
    requires limit { out.old.limit ≡ kept_limit }
    requires first { pass.old.searching.first ≡ first }
    requires request { pass.old.searching.request ≡ asked kind key.now }
    requires at { AtStage map.now.layout out.old.content stage pass.old }
    ensures limit { out.new.limit ≡ out.old.limit }
    ensures steps { Steps map.now.layout (asked kind key.now) (Progress.Under first stage) pass.old pass.new out.new.content result }
{
    let stage = match stage {
        Stage::Bucket { bucket } => load_bucket(pass, map, key, bucket),
        Stage::FirstWord { place } => load_first_word(pass, map, key, place),
        Stage::Shape { place, compared } => load_shape(kind, pass, map, key, place, compared),
        Stage::KeyWord { place, compared } => load_key_word(pass, map, key, place, compared),
        Stage::State { place } => load_state(pass, map, place),
        Stage::Next { place } => load_next(pass, map, key, place),
        Stage::Size { place } => load_size(pass, map, key, place),
        Stage::Number { place, size } => load_number(pass, map, place, size),
        Stage::Version {
            place,
            size,
            number,
        } => load_version(pass, map, out, place, size, number),
        Stage::Reply {
            place,
            size,
            number,
            version,
            copied,
        } => load_reply(pass, map, key, out, place, size, number, version, copied),
        Stage::Last { answer } => {
            let answer = load_last(pass, map, out, first, answer);
            return Progress::Answered { answer };
        }
    };
    Progress::Under { first, stage }
}
