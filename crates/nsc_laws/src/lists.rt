//! The service lists of nsswitch.conf(5).

ghost use Rattle.std.specs.Prelude.{◌≡◌, ◌≢◌, ℕ, List, [], Some};
ghost use Rattle.nsc_model.specs.declared.switch.DbName.{DbName};
ghost use Rattle.nsc_model.specs.declared.switch.SwitchStep.{SwitchStep};
ghost use Rattle.nsc_model.specs.Switches.{WritesSteps, list_of, spelled_list};
ghost use Rattle.nsc_laws.specs.ServiceLists.{GivesList};

/// A text spells exactly the service list that reading it token by token gives.
pub fn texts_spell_lists()
    ensures read { (text : List ℕ) (steps : List SwitchStep) → WritesSteps text steps → spelled_list text ≡ Some steps }
    ensures spelled { (text : List ℕ) (steps : List SwitchStep) → spelled_list text ≡ Some steps → WritesSteps text steps }
{}

/// The list of a name is exactly the one that the text gives by the grammar: what the first line of the name spells, item by
/// item, or the default list where it spells none or there is no such line. It has a service at least.
pub fn texts_give_lists()
    ensures given { (text : List ℕ) (name : DbName) → GivesList text name (list_of text name) }
    ensures alone { (text : List ℕ) (name : DbName) (steps : List SwitchStep) → GivesList text name steps → list_of text name ≡ steps }
    ensures filled { (text : List ℕ) (name : DbName) → list_of text name ≢ [] }
{}
