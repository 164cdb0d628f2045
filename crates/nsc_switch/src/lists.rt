// `Lists`: the service lists of a content's nsswitch.conf(5).
ghost use Rattle.std.specs.Prelude.{◌≡◌, IfOk};
ghost use Rattle.nsc_model.specs.Files.{FilesFit, file_of};
ghost use Rattle.nsc_model.specs.Switches.{compat_list, compat_name, list_name, list_of, service_list, text_of};
ghost use Rattle.nsc_switch.specs.Lists.{compat_list_in, list_in, lists_of};

use nsc_base::NoMemory;
use nsc_model::{Content, Db, DbName, FileId, SwitchStep};
use nsc_switchconf::service_list;
use std::alloc::Global;
use std::marker::Model;

/// The service lists of the four databases and those that compat lines ask, read once from a content's nsswitch.conf(5).
#[derive(Debug, Drop)]
pub struct Lists {
    passwd: Vec<SwitchStep>,
    group: Vec<SwitchStep>,
    hosts: Vec<SwitchStep>,
    services: Vec<SwitchStep>,
    passwd_compat: Vec<SwitchStep>,
    group_compat: Vec<SwitchStep>,
}

impl Model for Lists {
    ghost use Rattle.nsc_switch.specs.Lists.{Lists};

    ghost Value = { Lists };

    ghost view = { λ l. record { passwd = l.passwd.items; group = l.group.items; hosts = l.hosts.items; services = l.services.items; passwd_compat = l.passwd_compat.items; group_compat = l.group_compat.items } };
}

impl Lists {
    /// The service lists of a content. No file of a content is longer than a file may be. Fails only for want of memory.
    #[tactic(auto, unfolding(nsc_model::specs::Switches::service_list, nsc_model::specs::Switches::compat_list))]
    pub fn of(alloc: Global, content: &Content) -> Result<Lists, NoMemory>
        ensures lists { IfOk result (λ lists. lists ≡ lists_of content.now) }
        ensures fits { FilesFit content.now }
    {
        let text = switch_text(content);
        Ok(Lists {
            passwd: service_list(alloc, text, DbName::Passwd)?,
            group: service_list(alloc, text, DbName::Group)?,
            hosts: service_list(alloc, text, DbName::Hosts)?,
            services: service_list(alloc, text, DbName::Services)?,
            passwd_compat: service_list(alloc, text, DbName::PasswdCompat)?,
            group_compat: service_list(alloc, text, DbName::GroupCompat)?,
        })
    }

    /// The service list of a database.
    pub fn list(&self, db: Db) -> &[SwitchStep]
        ensures { result.now ≡ list_in self.now db }
    {
        match db {
            Db::Passwd => &self.passwd,
            Db::Group => &self.group,
            Db::Hosts => &self.hosts,
            Db::Services => &self.services,
        }
    }

    /// The list that the compat lines of a database ask. Hosts and services have no compat, so theirs is never asked.
    pub fn compat_list(&self, db: Db) -> &[SwitchStep]
        ensures { result.now ≡ compat_list_in self.now db }
    {
        match db {
            Db::Group => &self.group_compat,
            Db::Passwd | Db::Hosts | Db::Services => &self.passwd_compat,
        }
    }
}

// The text of nsswitch.conf(5); an absent file is like an empty one.
fn switch_text(content: &Content) -> &[u8]
    ensures text { result.now ≡ text_of (file_of content.now FileId.Switch) }
    ensures fits { FilesFit content.now }
{
    match content.file(FileId::Switch) {
        Some(text) => text,
        None => b"",
    }
}
