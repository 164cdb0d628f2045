// `Prepared`: the files that a database reads in a replay, prepared for answers.
ghost use Rattle.std.specs.Prelude.{◌≡◌, IfOk};
ghost use Rattle.std.specs.Arc.{arc_value};

use nsc_base::NoMemory;
use nsc_model::{Answerer, Content};
use std::alloc::Global;
use std::marker::Model;
use std::sync::Arc;

/// The files that a database reads, as they are, and what was prepared from them: once an answer was asked for, and for many
/// answers, once further ones are.
#[derive(Drop)]
pub struct Prepared<A: Answerer> {
    content: Arc<Content>,
    ready: Option<A::Ready>,
    is_for_many: bool,
}

impl<A: Answerer> Model for Prepared<A> {
    ghost use Rattle.std.specs.Prelude.{◌≡◌, IfSome};
    ghost use Rattle.std.specs.Arc.{arc_value};
    ghost use Rattle.nsc_model.specs.Content.{Content};

    ghost Value = { Content };

    ghost view = { λ p. arc_value p.content };

    ghost invariant = { λ p. IfSome p.ready (λ ready. A.prepared_from ready ≡ arc_value p.content) };
}

impl<A: Answerer> Prepared<A> {
    /// These files, from which nothing is prepared so far.
    pub fn new(content: Arc<Content>) -> Prepared<A>
        ensures { result ≡ arc_value content }
    {
        Prepared {
            content,
            ready: None,
            is_for_many: false,
        }
    }

    /// Another handle on the files.
    pub fn content(&self) -> Result<Arc<Content>, NoMemory>
        ensures { IfOk result (λ content. arc_value content ≡ self.now) }
    {
        Ok(self.content.clone()?)
    }

    /// What answers are made from over these files, for a lookup, or for `count` entries that are loaded again; it is to be handed
    /// back. For many answers it is prepared further, if there is memory for that. Fails only for want of memory.
    pub fn lend(&mut self, alloc: Global, answers: &A, count: usize) -> Result<A::Ready, NoMemory>
        ensures same { self.new ≡ self.old }
        ensures ready { IfOk result (λ ready. A.prepared_from ready ≡ self.old) }
    {
        let is_further = count > 1 || self.ready.is_some();
        let ready = match self.ready.take() {
            Some(ready) => ready,
            None => answers.prepare(alloc, self.content.clone()?)?,
        };
        if self.is_for_many || !is_further {
            return Ok(ready);
        }
        self.is_for_many = true;
        match answers.prepare_further(alloc, &ready) {
            Some(further) => Ok(further),
            None => Ok(ready),
        }
    }

    /// Takes back what was lent.
    pub fn keep(&mut self, ready: A::Ready)
        requires { A.prepared_from ready ≡ self.old }
        ensures { self.new ≡ self.old }
    {
        self.ready = Some(ready);
    }
}
