// `Indexed`: answers by a search at first, and by indexes of a content prepared further.
ghost use Rattle.std.specs.Prelude.{◌≡◌, IfOk};
ghost use Rattle.std.specs.Arc.{arc_value};
ghost use Rattle.nsc_model.specs.Answers.{looked_up};
ghost use Rattle.nsc_model.specs.Files.{FilesFit};
ghost use Rattle.nsc_index.specs.Indexed.{content_of};

use crate::indexed_content::IndexedContent;
use nsc_answer::{Listed, answer_with};
use nsc_base::NoMemory;
use nsc_model::{Answer, Answerer, Content, Kind, Looked};
use std::alloc::Global;
use std::sync::Arc;

/// A content that is ready for answers.
#[derive(Debug, Drop)]
pub enum ReadyContent {
    /// Its service lists are read: a lookup of an entry costs a search through the files.
    Listed(Listed),
    /// Its files have their indexes too: a lookup of an entry walks along a chain, or searches in the order of its key.
    Indexed(IndexedContent),
}

impl ReadyContent {
    // The content.
    fn content(&self) -> &Arc<Content>
        ensures { arc_value result.now ≡ content_of self.now }
    {
        match self {
            ReadyContent::Listed(listed) => listed.content(),
            ReadyContent::Indexed(indexed) => indexed.shared(),
        }
    }

    // The outcome of the switch over the content for the request of this kind and key. No file of the content is longer than a file
    // may be. Fails only for want of memory.
    fn look(&self, alloc: Global, kind: Kind, key: &[u8]) -> Result<Looked, NoMemory>
        ensures outcome { IfOk result (λ looked. looked ≡ looked_up (content_of self.now) (record { kind = kind; key = key.now })) }
        ensures fits { FilesFit (content_of self.now) }
    {
        match self {
            ReadyContent::Listed(listed) => listed.look(alloc, kind, key),
            ReadyContent::Indexed(indexed) => indexed.look(alloc, kind, key),
        }
    }
}

/// Answers over the files themselves until a content is prepared further, and then over indexes of its files. So the first answer over
/// a content waits for no index, and the later ones go through no file.
#[derive(Clone, Copy, Debug)]
pub struct Indexed;

impl Answerer for Indexed {
    type Ready = ReadyContent;

    ghost prepared_from = { content_of };

    fn prepare(&self, alloc: Global, content: Arc<Content>) -> Result<ReadyContent, NoMemory> {
        Ok(ReadyContent::Listed(Listed::of(alloc, content)?))
    }

    fn content<'a>(&self, ready: &'a ReadyContent) -> &'a Arc<Content> {
        ready.content()
    }

    fn prepare_further(&self, alloc: Global, ready: &ReadyContent) -> Option<ReadyContent> {
        match ready {
            ReadyContent::Listed(listed) => {
                let content = listed.content().clone().ok()?;
                let indexed = IndexedContent::of(alloc, content).ok()?;
                Some(ReadyContent::Indexed(indexed))
            }
            ReadyContent::Indexed(_) => None,
        }
    }

    fn answer(
        &self,
        alloc: Global,
        ready: &ReadyContent,
        kind: Kind,
        key: &[u8],
    ) -> Result<Answer, NoMemory> {
        let looked = ready.look(alloc, kind, key)?;
        answer_with(alloc, kind, looked)
    }
}
