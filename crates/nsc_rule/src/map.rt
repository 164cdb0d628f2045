// `Map`: a handle on the shared words of a database, and the making of new words.
ghost use Rattle.std.specs.Prelude.{◌≡◌, None, IfOk};
ghost use Rattle.nsc_words.specs.Layout.{IsLayout, table_words};
ghost use Rattle.nsc_rule.specs.Pass.{whole_pass};
ghost use Rattle.nsc_rule.specs.Plans.{Sound, cycle_of, first_plan, no_nodes};
ghost use Rattle.nsc_rule.specs.Seats.{opening_plan, rested};

use crate::pass::Pass;
use crate::pen::Pen;
use crate::plays::WordRule;
use crate::view::{About, Origin, View};
use atomic_table::{Shared, Table};
use nsc_base::NoMemory;
use nsc_model::Content;
use nsc_words::{FIRST_FREE, Layout};
use std::alloc::Global;
use std::marker::Model;
use std::snapshot::Snapshot;
use std::sync::Arc;

// The words, with the memory that they stand in.
type Words = Table<(), View, About, WordRule, Global>;

/// A handle on the words that the threads of one database share.
#[derive(Drop)]
pub struct Map {
    layout: Layout,
    words: Arc<Words>,
}

impl Model for Map {
    ghost use Rattle.std.specs.Prelude.{◌≡◌};
    ghost use Rattle.std.specs.Arc.{arc_value};
    ghost use Rattle.nsc_words.specs.Layout.{IsLayout, table_words};
    ghost use Rattle.nsc_rule.specs.Map.{Map};

    ghost Value = { Map };

    ghost view = { λ m. record { table = (arc_value m.words).shared.table_id; layout = m.layout } };

    ghost invariant = { λ m. ((arc_value m.words).shared.table_id.words ≡ table_words m.layout) × ((arc_value m.words).shared.key.layout ≡ m.layout) × IsLayout m.layout };
}

impl Map {
    /// Another handle on the same words. Fails only for want of memory.
    pub fn share(&self) -> Result<Map, NoMemory>
        ensures { IfOk result (λ map. map ≡ self.now) }
    {
        Ok(Map {
            layout: self.layout,
            words: Arc::try_clone(&self.words)?,
        })
    }

    /// How the words are laid out.
    pub fn layout(&self) -> Layout
        ensures layout { result ≡ self.now.layout }
        ensures sizes { IsLayout self.now.layout }
        ensures wide { self.now.table.words ≡ table_words self.now.layout }
    {
        self.layout
    }

    // The words.
    pub(crate) fn words(&self) -> &Shared<(), View, About, WordRule>
        ensures words { result.now.table_id ≡ self.now.table }
        ensures count { result.now.table_id.words ≡ table_words self.now.layout }
        ensures key { result.now.key.layout ≡ self.now.layout }
    {
        &self.words.shared
    }
}

/// New words with no entry, with the pen that writes them and a first pass: the history is this content as version 0. Fails only for
/// want of memory.
pub fn start(alloc: Global, layout: Layout, content: &Content) -> Result<(Map, Pen, Pass), NoMemory>
    requires { IsLayout layout }
    ensures map { IfOk result (λ r. r.0.layout ≡ layout) }
    ensures pen { IfOk result (λ r. r.1 ≡ record { table = r.0.table; plan = first_plan layout content.now }) }
    ensures pass { IfOk result (λ r. r.2 ≡ record { table = r.0.table; seen = (first_plan layout content.now).seen; retired = None; searching = rested (cycle_of (first_plan layout content.now)) }) }
{
    content.learn();
    let words = first_words(alloc, layout)?;
    let origin = Origin::Fresh(Snapshot::of(content));
    begin(alloc, layout, origin, words.as_slice())
}

// A table that begins with these words, with its pen and a first pass. Fails only for want of memory.
pub(crate) fn begin(
    alloc: Global,
    layout: Layout,
    origin: Origin,
    words: &[u64],
) -> Result<(Map, Pen, Pass), NoMemory>
    requires layout { (opening_plan layout origin).layout ≡ layout }
    requires words { words.now ≡ (opening_plan layout origin).words }
    requires sound { Sound (opening_plan layout origin) }
    ensures map { IfOk result (λ r. r.0.layout ≡ layout) }
    ensures pen { IfOk result (λ r. r.1 ≡ record { table = r.0.table; plan = opening_plan layout origin }) }
    ensures pass { IfOk result (λ r. r.2 ≡ whole_pass r.0.table (opening_plan layout origin)) }
{
    let about = About { layout, origin };
    let (table, seat) = Words::of_words(alloc, words, &about)?;
    let map = Map {
        layout,
        words: Arc::new(alloc, table)?,
    };
    let mut pen = Pen::new(seat, words);
    let pass = pen.pass(&map);
    Ok((map, pen, pass))
}

// Words with no node.
fn first_words(alloc: Global, layout: Layout) -> Result<Vec<u64>, NoMemory>
    requires { IsLayout layout }
    ensures { IfOk result (λ words. words.items ≡ no_nodes layout) }
{
    let mut words = vec![in alloc; 0; layout.words()]?;
    words[FIRST_FREE] = layout.arena_start() as u64;
    Ok(words)
}
