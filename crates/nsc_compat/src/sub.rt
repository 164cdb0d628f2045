// `SubLookup`: the trait of further services that plus lines ask.
ghost use Rattle.std.specs.Prelude.{◌≡◌, true, IfOk, map};
ghost use Rattle.nsc_model.specs.Content.{Content};
ghost use Rattle.nsc_model.specs.Compat.{has_compat};
ghost use Rattle.nsc_model.specs.Answers.{named_groups, sub_looked};
ghost use Rattle.nsc_model.specs.Kinds.{database_of};
ghost use Rattle.nsc_model.specs.Files.{file_of};
ghost use Rattle.nsc_model.specs.Switches.{text_of};
ghost use Rattle.nsc_accounts.specs.Matters.{AreLines, matters_for, sought_file};
ghost use Rattle.nsc_accounts.specs.NamedId.{pair_of};

use nsc_accounts::{NamedId, Sought};
use nsc_base::{NoMemory, Span};
use nsc_model::{Content, Kind, Looked};
use std::alloc::Global;

/// A content with the services that its compat lines ask: those of the list `passwd_compat` or `group_compat` of its
/// nsswitch.conf(5), within which compat itself is unavailable.
pub trait SubLookup {
    /// The content.
    ghost content: { Self → Content };

    /// The content.
    fn content(&self) -> &Content
        ensures { result.now ≡ content self.now };

    /// The lines that matter to compat for what is sought, of the file in which it is sought; of an absent file none. Fails only
    /// for want of memory.
    fn lines(&self, alloc: Global, sought: Sought) -> Result<Vec<Span>, NoMemory>
        ensures { IfOk result (λ lines. AreLines (text_of (file_of (content self.now) (sought_file sought.entry))) (matters_for sought.entry) lines.items) };

    /// The outcome of these services for the request of this kind, which is one of passwd or group, and key. Fails only
    /// for want of memory.
    fn look(&self, alloc: Global, kind: Kind, key: &[u8]) -> Result<Looked, NoMemory>
        requires { has_compat (database_of kind) ≡ true }
        ensures { IfOk result (λ looked. looked ≡ sub_looked (content self.now) (database_of kind) kind key.now) };

    /// The names and ids of all groups that have the user as a member, in the order of the file, none dropped: those of
    /// each service whose rows the list takes, and so none where the outcome is not SUCCESS. Fails only for want of memory.
    fn named_groups(&self, alloc: Global, user: &[u8]) -> Result<Vec<NamedId>, NoMemory>
        ensures { IfOk result (λ groups. map pair_of groups.items ≡ named_groups (content self.now) user.now) };
}
