// `Listed`: a content with its service lists, and the outcome of the switch over the lists.
ghost use Rattle.std.specs.Prelude.{◌≡◌, IfOk};
ghost use Rattle.std.specs.Arc.{arc_value};
ghost use Rattle.nsc_model.specs.Answers.{looked_up};
ghost use Rattle.nsc_model.specs.Files.{FilesFit};

use nsc_base::NoMemory;
use nsc_model::{Content, Kind, Looked};
use nsc_switch::{Lists, switch_by};
use std::alloc::Global;
use std::marker::Model;
use std::sync::Arc;

/// A content with its service lists, which were read once.
#[derive(Debug, Drop)]
pub struct Listed {
    content: Arc<Content>,
    lists: Lists,
}

impl Model for Listed {
    ghost use Rattle.std.specs.Prelude.{◌≡◌};
    ghost use Rattle.std.specs.Arc.{arc_value};
    ghost use Rattle.nsc_model.specs.Content.{Content};
    ghost use Rattle.nsc_model.specs.Files.{FilesFit};
    ghost use Rattle.nsc_switch.specs.Lists.{lists_of};

    ghost Value = { Content };

    ghost view = { λ p. arc_value p.content };

    ghost invariant = { λ p. (p.lists ≡ lists_of (arc_value p.content)) × FilesFit (arc_value p.content) };
}

impl Listed {
    /// A content, once its service lists are read. Fails only for want of memory.
    pub fn of(alloc: Global, content: Arc<Content>) -> Result<Listed, NoMemory>
        ensures { IfOk result (λ listed. listed ≡ arc_value content) }
    {
        let lists = Lists::of(alloc, &content)?;
        Ok(Listed { content, lists })
    }

    /// The content.
    pub fn content(&self) -> &Arc<Content>
        ensures { arc_value result.now ≡ self.now }
    {
        &self.content
    }

    /// The outcome of the switch over the content for the request of this kind and key. No file of the content is longer
    /// than a file may be. Fails only for want of memory.
    pub fn look(&self, alloc: Global, kind: Kind, key: &[u8]) -> Result<Looked, NoMemory>
        ensures outcome { IfOk result (λ looked. looked ≡ looked_up self.now (record { kind = kind; key = key.now })) }
        ensures fits { FilesFit self.now }
    {
        let content: &Content = &self.content;
        switch_by(alloc, content, &self.lists, kind, key)
    }
}
