// `Finder`: the trait of ways to find entries in the files of a content.
ghost use Rattle.std.specs.Prelude.{◌≡◌, ◌==◌, IfOk, IfSome, Some, length, map};
ghost use Rattle.std.specs.Option.{option_map};
ghost use Rattle.std.specs.Str.{bytes_eq};
ghost use Rattle.nsc_model.specs.Content.{Content};
ghost use Rattle.nsc_model.specs.Answers.{addresses_of, ids_of, pairs_of};
ghost use Rattle.nsc_model.specs.Entries.{first_named};
ghost use Rattle.nsc_model.specs.Files.{file_of};
ghost use Rattle.nsc_model.specs.Groups.{group_of_line};
ghost use Rattle.nsc_model.specs.Hosts.{host_addressed, host_named, host_of_line};
ghost use Rattle.nsc_model.specs.ServiceLines.{service_named, service_of_line, service_ported};
ghost use Rattle.nsc_model.specs.Switches.{text_of};
ghost use Rattle.nsc_model.specs.Users.{user_of_line};
ghost use Rattle.nsc_accounts.specs.Group.{GroupLiesIn, group_at};
ghost use Rattle.nsc_accounts.specs.Matters.{AreLines, matters_for, sought_file};
ghost use Rattle.nsc_accounts.specs.NamedId.{pair_of};
ghost use Rattle.nsc_accounts.specs.Passwd.{UserLiesIn, user_at};
ghost use Rattle.nsc_nets.specs.Hosts.{HostLiesIn, host_at};
ghost use Rattle.nsc_nets.specs.Services.{ServiceLiesIn, service_at};

use nsc_accounts::{GroupAt, NamedId, PasswdAt, Sought};
use nsc_base::{Ids, NoMemory, Span};
use nsc_model::{Ai, Content, FileId};
use nsc_nets::{HostAt, ServiceAt};
use std::alloc::Global;

/// A way to find entries in the files of a content. A search is given a file that is there, and its text, and what it finds are places
/// in that text; `None` where no entry is the one that is sought. A call with a `Result` fails only for want of memory.
pub trait Finder {
    /// The content.
    ghost content: { Self → Content };

    /// The content.
    fn content(&self) -> &Content
        ensures { result.now ≡ content self.now };

    /// The first user of a passwd file, passwd(5), that has this name.
    fn user_named(
        &self,
        alloc: Global,
        file: FileId,
        text: &[u8],
        name: &[u8],
    ) -> Result<Option<PasswdAt>, NoMemory>
        requires { file_of (content self.now) file ≡ Some text.now }
        ensures entry { IfOk result (λ found. option_map (user_at text.now) found ≡ first_named user_of_line (λ p. bytes_eq p.name name.now) text.now) }
        ensures inside { IfOk result (λ found. IfSome found (UserLiesIn (record { from = 0; to = length text.now }))) };

    /// The first user of a passwd file that has this user id.
    fn user_numbered(
        &self,
        alloc: Global,
        file: FileId,
        text: &[u8],
        uid: u32,
    ) -> Result<Option<PasswdAt>, NoMemory>
        requires { file_of (content self.now) file ≡ Some text.now }
        ensures entry { IfOk result (λ found. option_map (user_at text.now) found ≡ first_named user_of_line (λ p. p.uid == uid) text.now) }
        ensures inside { IfOk result (λ found. IfSome found (UserLiesIn (record { from = 0; to = length text.now }))) };

    /// The first group of a group file, group(5), that has this name.
    fn group_named(
        &self,
        alloc: Global,
        file: FileId,
        text: &[u8],
        name: &[u8],
    ) -> Result<Option<GroupAt>, NoMemory>
        requires { file_of (content self.now) file ≡ Some text.now }
        ensures entry { IfOk result (λ found. option_map (group_at text.now) found ≡ first_named group_of_line (λ g. bytes_eq g.name name.now) text.now) }
        ensures inside { IfOk result (λ found. IfSome found (GroupLiesIn (record { from = 0; to = length text.now }))) };

    /// The first group of a group file that has this group id.
    fn group_numbered(
        &self,
        alloc: Global,
        file: FileId,
        text: &[u8],
        gid: u32,
    ) -> Result<Option<GroupAt>, NoMemory>
        requires { file_of (content self.now) file ≡ Some text.now }
        ensures entry { IfOk result (λ found. option_map (group_at text.now) found ≡ first_named group_of_line (λ g. g.gid == gid) text.now) }
        ensures inside { IfOk result (λ found. IfSome found (GroupLiesIn (record { from = 0; to = length text.now }))) };

    /// The ids of the groups of a group file that have this user as a member, in the order of the file, each once.
    fn groups_of(
        &self,
        alloc: Global,
        file: FileId,
        text: &[u8],
        user: &[u8],
    ) -> Result<Ids, NoMemory>
        requires { file_of (content self.now) file ≡ Some text.now }
        ensures { IfOk result (λ ids. ids ≡ ids_of user.now text.now) };

    /// The names and ids of the groups of a group file that have this user as a member, none dropped.
    fn named_groups(
        &self,
        alloc: Global,
        file: FileId,
        text: &[u8],
        user: &[u8],
    ) -> Result<Vec<NamedId>, NoMemory>
        requires { file_of (content self.now) file ≡ Some text.now }
        ensures { IfOk result (λ groups. map pair_of groups.items ≡ pairs_of user.now (Some text.now)) };

    /// The first host of a hosts file, hosts(5), that has this name and an address of this family, 2 for IPv4 and 10 for IPv6. The case
    /// of ASCII letters in names does not count.
    fn host_named(&self, file: FileId, text: &[u8], name: &[u8], family: u8) -> Option<HostAt>
        requires { file_of (content self.now) file ≡ Some text.now }
        ensures entry { option_map (host_at text.now) result ≡ first_named host_of_line (host_named family name.now) text.now }
        ensures inside { IfSome result (HostLiesIn (record { from = 0; to = length text.now })) };

    /// The first host of a hosts file that has this address, of four bytes or of sixteen.
    fn host_addressed(&self, file: FileId, text: &[u8], address: &[u8]) -> Option<HostAt>
        requires { file_of (content self.now) file ≡ Some text.now }
        ensures entry { option_map (host_at text.now) result ≡ first_named host_of_line (host_addressed address.now) text.now }
        ensures inside { IfSome result (HostLiesIn (record { from = 0; to = length text.now })) };

    /// The addresses of the host of this name: the first of each family, and the name of the first of these.
    fn addresses(
        &self,
        alloc: Global,
        file: FileId,
        text: &[u8],
        name: &[u8],
    ) -> Result<Option<Ai>, NoMemory>
        requires { file_of (content self.now) file ≡ Some text.now }
        ensures { IfOk result (λ ai. ai ≡ addresses_of name.now text.now) };

    /// The first service of a services file, services(5), that has this name and this protocol. If the protocol is empty, any will do.
    fn service_named(
        &self,
        file: FileId,
        text: &[u8],
        name: &[u8],
        proto: &[u8],
    ) -> Option<ServiceAt>
        requires { file_of (content self.now) file ≡ Some text.now }
        ensures entry { option_map (service_at text.now) result ≡ first_named service_of_line (service_named name.now proto.now) text.now }
        ensures inside { IfSome result (ServiceLiesIn (record { from = 0; to = length text.now })) };

    /// The first service of a services file that has this port and this protocol. If the protocol is empty, any will do.
    fn service_ported(
        &self,
        file: FileId,
        text: &[u8],
        port: u16,
        proto: &[u8],
    ) -> Option<ServiceAt>
        requires { file_of (content self.now) file ≡ Some text.now }
        ensures entry { option_map (service_at text.now) result ≡ first_named service_of_line (service_ported port proto.now) text.now }
        ensures inside { IfSome result (ServiceLiesIn (record { from = 0; to = length text.now })) };

    /// The lines that matter to compat for what is sought, of the file in which it is sought; of an absent file none.
    fn compat_lines(&self, alloc: Global, sought: Sought) -> Result<Vec<Span>, NoMemory>
        ensures { IfOk result (λ lines. AreLines (text_of (file_of (content self.now) (sought_file sought.entry))) (matters_for sought.entry) lines.items) };
}
