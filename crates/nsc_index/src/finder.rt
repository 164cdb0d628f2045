//! Entries found by the indexes of files. A file that has none is searched.

use crate::indexed_content::IndexedContent;
use nsc_accounts::{GroupAt, NamedId, PasswdAt, Sought};
use nsc_base::{Ids, NoMemory, Span};
use nsc_files::{Finder, text_in};
use nsc_model::{Ai, Content, FileId};
use nsc_nets::{HostAt, ServiceAt};
use std::alloc::Global;

impl Finder for IndexedContent {
    ghost content = { λ prepared. prepared };

    fn content(&self) -> &Content {
        self.shared()
    }

    fn user_named(
        &self,
        alloc: Global,
        file: FileId,
        text: &[u8],
        name: &[u8],
    ) -> Result<Option<PasswdAt>, NoMemory> {
        match self.users(file) {
            Some(users) => users.by_name(alloc, text, name),
            None => Finder::content(self).user_named(alloc, file, text, name),
        }
    }

    fn user_numbered(
        &self,
        alloc: Global,
        file: FileId,
        text: &[u8],
        uid: u32,
    ) -> Result<Option<PasswdAt>, NoMemory> {
        match self.users(file) {
            Some(users) => users.by_id(alloc, text, uid),
            None => Finder::content(self).user_numbered(alloc, file, text, uid),
        }
    }

    fn group_named(
        &self,
        alloc: Global,
        file: FileId,
        text: &[u8],
        name: &[u8],
    ) -> Result<Option<GroupAt>, NoMemory> {
        match self.groups(file) {
            Some(groups) => Ok(groups.by_name(text, name)),
            None => Finder::content(self).group_named(alloc, file, text, name),
        }
    }

    fn group_numbered(
        &self,
        alloc: Global,
        file: FileId,
        text: &[u8],
        gid: u32,
    ) -> Result<Option<GroupAt>, NoMemory> {
        match self.groups(file) {
            Some(groups) => Ok(groups.by_id(text, gid)),
            None => Finder::content(self).group_numbered(alloc, file, text, gid),
        }
    }

    fn groups_of(
        &self,
        alloc: Global,
        file: FileId,
        text: &[u8],
        user: &[u8],
    ) -> Result<Ids, NoMemory> {
        match self.groups(file) {
            Some(groups) => groups.ids_of(alloc, text, user),
            None => Finder::content(self).groups_of(alloc, file, text, user),
        }
    }

    fn named_groups(
        &self,
        alloc: Global,
        file: FileId,
        text: &[u8],
        user: &[u8],
    ) -> Result<Vec<NamedId>, NoMemory> {
        match self.groups(file) {
            Some(groups) => groups.named_groups(alloc, text, user),
            None => Finder::content(self).named_groups(alloc, file, text, user),
        }
    }

    fn host_named(&self, file: FileId, text: &[u8], name: &[u8], family: u8) -> Option<HostAt> {
        match self.hosts(file) {
            Some(hosts) => hosts.by_name(text, name, family),
            None => Finder::content(self).host_named(file, text, name, family),
        }
    }

    fn host_addressed(&self, file: FileId, text: &[u8], address: &[u8]) -> Option<HostAt> {
        match self.hosts(file) {
            Some(hosts) => hosts.by_address(text, address),
            None => Finder::content(self).host_addressed(file, text, address),
        }
    }

    fn addresses(
        &self,
        alloc: Global,
        file: FileId,
        text: &[u8],
        name: &[u8],
    ) -> Result<Option<Ai>, NoMemory> {
        match self.hosts(file) {
            Some(hosts) => hosts.addresses(alloc, text, name),
            None => Finder::content(self).addresses(alloc, file, text, name),
        }
    }

    fn service_named(
        &self,
        file: FileId,
        text: &[u8],
        name: &[u8],
        proto: &[u8],
    ) -> Option<ServiceAt> {
        match self.services(file) {
            Some(services) => services.by_name(text, name, proto),
            None => Finder::content(self).service_named(file, text, name, proto),
        }
    }

    fn service_ported(
        &self,
        file: FileId,
        text: &[u8],
        port: u16,
        proto: &[u8],
    ) -> Option<ServiceAt> {
        match self.services(file) {
            Some(services) => services.by_port(text, port, proto),
            None => Finder::content(self).service_ported(file, text, port, proto),
        }
    }

    fn compat_lines(&self, alloc: Global, sought: Sought) -> Result<Vec<Span>, NoMemory> {
        let passwd = text_in(Finder::content(self), FileId::Passwd);
        let group = text_in(Finder::content(self), FileId::Group);
        match sought {
            Sought::User(name) => self.own_users().lines_of_name(alloc, passwd, name),
            Sought::UserId(uid) => self.own_users().lines_of_id(alloc, passwd, uid),
            Sought::Group(name) => self.own_groups().lines_of_name(alloc, group, name),
            Sought::GroupId(gid) => self.own_groups().lines_of_id(alloc, group, gid),
            Sought::Member(user) => self.own_groups().lines_of_member(alloc, group, user),
        }
    }
}
