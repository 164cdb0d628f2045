// A law of the definitions.
ghost use Rattle.std.specs.Prelude.{◌≡◌, ℕ, List};
ghost use Rattle.nsc_words.specs.declared.layout.Layout.{Layout};
ghost use Rattle.nsc_words.specs.declared.node.Placed.{Placed};
ghost use Rattle.nsc_words.specs.Laid.{Laid};
ghost use Rattle.nsc_arena.specs.ReadBack.{nodes_in};

/// Words hold one list of nodes at most, and that is the one that is read back.
pub fn nodes_are_read_back()
    ensures { (words : List ℕ) (map : Layout) (nodes : List Placed) → Laid words map nodes → nodes_in words map ≡ nodes }
{}
