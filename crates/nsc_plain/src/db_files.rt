// `DbFiles`: the files that a database reads, polled or not, and prepared for answers.
ghost use Rattle.std.specs.Prelude.{◌≡◌, true, false, IfOk};
ghost use Rattle.std.specs.Arc.{arc_value};
ghost use Rattle.nsc_model.specs.Answers.{answer_of};

use nsc_base::NoMemory;
use nsc_model::{Answer, Answerer, Content, Kind};
use std::alloc::Global;
use std::marker::Model;
use std::sync::Arc;

/// The files that a database reads, as they are: whether its cache is known to have polled them, and what was prepared
/// from them, once an answer was asked for, and for many answers, once a second lookup or reload asks for some.
#[derive(Drop)]
pub struct DbFiles<A: Answerer> {
    content: Arc<Content>,
    is_polled: bool,
    ready: Option<A::Ready>,
    is_for_many: bool,
}

impl<A: Answerer> Model for DbFiles<A> {
    ghost use Rattle.std.specs.Prelude.{◌≡◌, IfSome};
    ghost use Rattle.std.specs.Arc.{arc_value};
    ghost use Rattle.nsc_plain.specs.DbFiles.{DbFiles};

    ghost Value = { DbFiles };

    ghost view = { λ p. record { files = arc_value p.content; is_polled = p.is_polled } };

    ghost invariant = { λ p. IfSome p.ready (λ ready. A.prepared_from ready ≡ arc_value p.content) };
}

impl<A: Answerer> DbFiles<A> {
    /// These files, which no cache is known to have polled.
    pub fn new(content: Arc<Content>) -> DbFiles<A>
        ensures { result ≡ record { files = arc_value content; is_polled = false } }
    {
        DbFiles {
            content,
            is_polled: false,
            ready: None,
            is_for_many: false,
        }
    }

    /// The files.
    pub(crate) fn content(&self) -> &Arc<Content>
        ensures { arc_value result.now ≡ self.now.files }
    {
        &self.content
    }

    /// Whether the cache is known to have polled them.
    pub(crate) fn is_polled(&self) -> bool
        ensures { result ≡ self.now.is_polled }
    {
        self.is_polled
    }

    /// The cache polled them.
    pub(crate) fn set_polled(&mut self)
        ensures { self.new ≡ record self.old { is_polled = true } }
    {
        self.is_polled = true;
    }

    /// Answers are to be made over these files, for a lookup or for an entry that is reloaded. Where some were made for another one,
    /// these and the later ones are made from what is prepared for many, if there is memory for it.
    pub(crate) fn begin(&mut self, alloc: Global, answers: &A)
        ensures { self.new ≡ self.old }
    {
        if self.is_for_many {
            return;
        }
        let Some(ready) = &self.ready else {
            return;
        };
        self.is_for_many = true;
        if let Some(further) = answers.prepare_further(alloc, ready) {
            self.ready = Some(further);
        }
    }

    /// The answer to the request of this kind and key over these files. Fails only for want of memory.
    pub(crate) fn answer(
        &mut self,
        alloc: Global,
        answers: &A,
        kind: Kind,
        key: &[u8],
    ) -> Result<Answer, NoMemory>
        ensures stays { self.new ≡ self.old }
        ensures answer { IfOk result (λ answer. answer ≡ answer_of self.old.files (record { kind = kind; key = key.now })) }
    {
        let ready = match self.ready.take() {
            Some(ready) => ready,
            None => answers.prepare(alloc, self.content.clone()?)?,
        };
        let answer = answers.answer(alloc, &ready, kind, key);
        self.ready = Some(ready);
        answer
    }
}
