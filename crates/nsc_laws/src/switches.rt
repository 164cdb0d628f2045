//! The switch over the services of a list, nsswitch.conf(5).

ghost use Rattle.std.specs.Prelude.{◌≡◌, ◌≢◌, List, []};
ghost use Rattle.nsc_model.specs.declared.answer.Request.{Request};
ghost use Rattle.nsc_model.specs.declared.kind.Db.{Db};
ghost use Rattle.nsc_model.specs.declared.kind.Kind.{Kind};
ghost use Rattle.nsc_model.specs.declared.row.Looked.{Looked};
ghost use Rattle.nsc_model.specs.Content.{Content};
ghost use Rattle.nsc_model.specs.declared.switch.SwitchService.{SwitchService};
ghost use Rattle.nsc_model.specs.declared.switch.SwitchStep.{SwitchStep};
ghost use Rattle.nsc_model.specs.Switches.{compat_list, service_list};
ghost use Rattle.nsc_model.specs.Answers.{service_answer, sub_answer, switched, takers};
ghost use Rattle.nsc_laws.specs.Turns.{EndsAt, taken};

/// The outcome of a switch is that of its takers: their rows joined, in the order of the steps. It is so whatever the services say,
/// and over the services of a content.
pub fn outcomes_are_taken()
    ensures any { (by : Kind) (look : SwitchService → Looked) (steps : List SwitchStep) → switched by look steps ≡ taken look (takers by look steps) }
    ensures of_content { (files : Content) (request : Request) (steps : List SwitchStep) → switched request.kind (service_answer files request) steps ≡ taken (service_answer files request) (takers request.kind (service_answer files request) steps) }
{}

/// A switch over one service or more ends at the last of its takers. Each step before it continues at the outcome of its service, or
/// merges the row that its service found. The takers are the services of the steps that merge, and then that of the step at which the
/// switch ends: this one neither continues nor merges, or it is the last. Each list of a content ends so, also one that compat lines
/// ask.
pub fn switches_end_at_their_takers()
    ensures any { (by : Kind) (look : SwitchService → Looked) (steps : List SwitchStep) → steps ≢ [] → EndsAt by look steps (takers by look steps) }
    ensures of_content { (files : Content) (request : Request) (db : Db) → EndsAt request.kind (service_answer files request) (service_list files db) (takers request.kind (service_answer files request) (service_list files db)) }
    ensures of_compat { (files : Content) (request : Request) (db : Db) → EndsAt request.kind (sub_answer files request) (compat_list files db) (takers request.kind (sub_answer files request) (compat_list files db)) }
{}
