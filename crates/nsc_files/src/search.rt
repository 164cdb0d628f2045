//! Entries found by a search through the lines of a file.

ghost use Rattle.std.specs.Prelude.{◌≡◌, ◌≤◌, length};
ghost use Rattle.nsc_model.specs.Files.{file_limit, file_of};
ghost use Rattle.nsc_model.specs.Switches.{text_of};

use crate::finder::Finder;
use nsc_accounts::{
    GroupAt, NamedId, PasswdAt, Sought, find_group_by_gid, find_group_by_name, find_passwd_by_name,
    find_passwd_by_uid, groups_of, lines_that_matter, named_groups,
};
use nsc_base::{Ids, NoMemory, Span};
use nsc_model::{Ai, Content, FileId};
use nsc_nets::{
    HostAt, ServiceAt, ai_of, find_host, find_host_by_addr, find_service, find_service_by_port,
};
use std::alloc::Global;

impl Finder for Content {
    ghost content = { λ content. content };

    fn content(&self) -> &Content {
        self
    }

    fn user_named(
        &self,
        _alloc: Global,
        _file: FileId,
        text: &[u8],
        name: &[u8],
    ) -> Result<Option<PasswdAt>, NoMemory> {
        Ok(find_passwd_by_name(text, name))
    }

    fn user_numbered(
        &self,
        _alloc: Global,
        _file: FileId,
        text: &[u8],
        uid: u32,
    ) -> Result<Option<PasswdAt>, NoMemory> {
        Ok(find_passwd_by_uid(text, uid))
    }

    fn group_named(
        &self,
        _alloc: Global,
        _file: FileId,
        text: &[u8],
        name: &[u8],
    ) -> Result<Option<GroupAt>, NoMemory> {
        Ok(find_group_by_name(text, name))
    }

    fn group_numbered(
        &self,
        _alloc: Global,
        _file: FileId,
        text: &[u8],
        gid: u32,
    ) -> Result<Option<GroupAt>, NoMemory> {
        Ok(find_group_by_gid(text, gid))
    }

    fn groups_of(
        &self,
        alloc: Global,
        _file: FileId,
        text: &[u8],
        user: &[u8],
    ) -> Result<Ids, NoMemory> {
        groups_of(alloc, text, user)
    }

    fn named_groups(
        &self,
        alloc: Global,
        _file: FileId,
        text: &[u8],
        user: &[u8],
    ) -> Result<Vec<NamedId>, NoMemory> {
        named_groups(alloc, text, user)
    }

    fn host_named(&self, _file: FileId, text: &[u8], name: &[u8], family: u8) -> Option<HostAt> {
        find_host(text, name, family)
    }

    fn host_addressed(&self, _file: FileId, text: &[u8], address: &[u8]) -> Option<HostAt> {
        find_host_by_addr(text, address)
    }

    fn addresses(
        &self,
        alloc: Global,
        _file: FileId,
        text: &[u8],
        name: &[u8],
    ) -> Result<Option<Ai>, NoMemory> {
        ai_of(alloc, text, name)
    }

    fn service_named(
        &self,
        _file: FileId,
        text: &[u8],
        name: &[u8],
        proto: &[u8],
    ) -> Option<ServiceAt> {
        find_service(text, name, proto)
    }

    fn service_ported(
        &self,
        _file: FileId,
        text: &[u8],
        port: u16,
        proto: &[u8],
    ) -> Option<ServiceAt> {
        find_service_by_port(text, port, proto)
    }

    fn compat_lines(&self, alloc: Global, sought: Sought) -> Result<Vec<Span>, NoMemory> {
        lines_that_matter(alloc, text_in(self, sought.file()), sought)
    }
}

/// The text of a file; an absent one is like an empty one.
pub fn text_in(content: &Content, file: FileId) -> &[u8]
    ensures text { result.now ≡ text_of (file_of content.now file) }
    ensures fits { length result.now ≤ file_limit }
{
    match content.file(file) {
        Some(text) => text,
        None => b"",
    }
}
