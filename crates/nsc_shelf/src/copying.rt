// Words that go on in place of others, with the nodes of these.
ghost use Rattle.std.specs.Prelude.{◌≡◌, ◌+◌, ◌<◌, true, None, IfOk};
ghost use Rattle.nsc_model.specs.Machine.{last_count};
ghost use Rattle.nsc_words.specs.Layout.{IsLayout};
ghost use Rattle.nsc_arena.specs.Written.{UsableNodesFit};
ghost use Rattle.nsc_rule.specs.Plans.{IsEven, IsOdd, cycle_of};
ghost use Rattle.nsc_rule.specs.Seats.{rested};
ghost use Rattle.nsc_rule.specs.Strokes.{ShowsAgain, finished};
ghost use Rattle.nsc_shelf.specs.Copied.{IsCopied};

use crate::sheet::Sheet;
use nsc_arena::{Words, copy_nodes};
use nsc_base::NoMemory;
use nsc_rule::Pass;
use nsc_words::Layout;
use std::alloc::Global;
use std::marker::Model;

// A sheet in whose words a slide is under way, which may all be set then but for those that count.
#[derive(Drop)]
struct Filling {
    sheet: Sheet,
}

impl Model for Filling {
    ghost use Rattle.nsc_rule.specs.Pen.{Pen};
    ghost use Rattle.nsc_rule.specs.Plans.{IsOdd};

    ghost Value = { Pen };

    ghost view = { λ f. f.sheet };

    ghost invariant = { λ f. IsOdd f.sheet.plan };
}

impl Filling {
    fn new(sheet: Sheet) -> Filling
        requires { IsOdd sheet.plan }
        ensures { result ≡ sheet }
    {
        Filling { sheet }
    }

    // Ends the slide, once the words show the live entries.
    fn finish(self) -> Sheet
        requires { ShowsAgain self.plan }
        ensures { result ≡ record self { plan = finished self.plan } }
    {
        let Filling { mut sheet } = self;
        sheet.finish();
        sheet
    }
}

impl Words for Filling {
    ghost use Rattle.std.specs.Prelude.{◌==◌, ◌||◌, nat_le};
    ghost use Rattle.nsc_shelf.specs.Sheet.{with_cycle_alone};

    ghost words = { λ f. f.plan.words };

    ghost rest = { with_cycle_alone };

    ghost can_set = { λ f at. (at == 3) || nat_le 16 at };

    fn len(&self) -> usize {
        self.sheet.len()
    }

    fn get(&mut self, at: usize) -> u64 {
        self.sheet.get(at)
    }

    fn set(&mut self, at: usize, value: u64) {
        self.sheet.slide_word(at, value);
    }
}

impl Sheet {
    /// Other words, of this layout, with the usable nodes of these, each behind those before it, and a pass of them that has seen this
    /// history: they have the history and the counts, and CYCLE goes on by two. They can go on in place of these, which stay as they
    /// are. The usable nodes fit. Fails only for want of memory.
    pub fn copy(&mut self, alloc: Global, layout: Layout) -> Result<(Sheet, Pass), NoMemory>
        requires sizes { IsLayout layout }
        requires even { IsEven self.old.plan }
        requires counted { self.old.plan.counted ≡ true }
        requires room { cycle_of self.old.plan < last_count }
        requires fit { UsableNodesFit layout self.old.plan.nodes }
        ensures same { self.new ≡ self.old }
        ensures sheet { IfOk result (λ r. IsCopied layout self.old.plan r.0.plan) }
        ensures pass { IfOk result (λ r. r.1 ≡ record { table = r.0.table; seen = self.old.plan.seen; retired = None; searching = rested (cycle_of self.old.plan + 1) }) }
    {
        self.learn();
        let (sheet, pass) = self.succeed(alloc, layout)?;
        let map = self.map().layout();
        let mut filling = Filling::new(sheet);
        copy_nodes(self, map, &mut filling, layout);
        Ok((filling.finish(), pass))
    }
}
