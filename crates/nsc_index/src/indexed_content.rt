// `IndexedContent`: a content with its service lists and the indexes of its files.
ghost use Rattle.std.specs.Arc.{arc_value};

use crate::groups::GroupIndex;
use crate::hosts::HostIndex;
use crate::services::ServiceIndex;
use crate::users::UserIndex;
use nsc_base::NoMemory;
use nsc_files::text_in;
use nsc_model::{Content, FileId, Kind, Looked};
use nsc_switch::{Lists, switch_by};
use std::alloc::Global;
use std::marker::Model;
use std::sync::Arc;

/// A content with its service lists and the indexes of its files, which were made once.
#[derive(Debug, Drop)]
pub struct IndexedContent {
    content: Arc<Content>,
    lists: Lists,
    users: UserIndex,
    groups: GroupIndex,
    extra_users: UserIndex,
    extra_groups: GroupIndex,
    hosts: HostIndex,
    services: ServiceIndex,
}

impl Model for IndexedContent {
    ghost use Rattle.std.specs.Arc.{arc_value};
    ghost use Rattle.nsc_model.specs.Content.{Content};

    ghost Value = { Content };

    ghost use Rattle.nsc_index.specs.IndexedContent.{IsIndexedContent};

    ghost view = { λ p. arc_value p.content };

    ghost invariant = { IsIndexedContent };
}

impl IndexedContent {
    ghost use Rattle.std.specs.Prelude.{◌≡◌, IfOk, IfSome};
    ghost use Rattle.std.specs.Arc.{arc_value};
    ghost use Rattle.nsc_model.specs.Answers.{looked_up};
    ghost use Rattle.nsc_model.specs.Files.{FilesFit, file_of};
    ghost use Rattle.nsc_model.specs.Switches.{text_of};
    ghost use Rattle.nsc_index.specs.Groups.{IsGroupIndex};
    ghost use Rattle.nsc_index.specs.Hosts.{IsHostIndex};
    ghost use Rattle.nsc_index.specs.Services.{IsServiceIndex};
    ghost use Rattle.nsc_index.specs.Users.{IsUserIndex};

    /// A content, once its service lists are read and its files have their indexes. Fails only for want of memory.
    pub(crate) fn of(alloc: Global, content: Arc<Content>) -> Result<IndexedContent, NoMemory>
        ensures { IfOk result (λ prepared. prepared ≡ arc_value content) }
    {
        let lists = Lists::of(alloc, &content)?;
        let users = UserIndex::of(alloc, text_in(&content, FileId::Passwd))?;
        let groups = GroupIndex::of(alloc, text_in(&content, FileId::Group))?;
        let extra_users = UserIndex::of(alloc, text_in(&content, FileId::ExtraPasswd))?;
        let extra_groups = GroupIndex::of(alloc, text_in(&content, FileId::ExtraGroup))?;
        let hosts = HostIndex::of(alloc, text_in(&content, FileId::Hosts))?;
        let services = ServiceIndex::of(alloc, text_in(&content, FileId::Services))?;
        Ok(IndexedContent {
            content,
            lists,
            users,
            groups,
            extra_users,
            extra_groups,
            hosts,
            services,
        })
    }

    /// The content, as it is shared.
    pub(crate) fn shared(&self) -> &Arc<Content>
        ensures { arc_value result.now ≡ self.now }
    {
        &self.content
    }

    /// The outcome of the switch over the content for the request of this kind and key. No file of the content is longer than a file
    /// may be. Fails only for want of memory.
    pub(crate) fn look(&self, alloc: Global, kind: Kind, key: &[u8]) -> Result<Looked, NoMemory>
        ensures outcome { IfOk result (λ looked. looked ≡ looked_up self.now (record { kind = kind; key = key.now })) }
        ensures fits { FilesFit self.now }
    {
        switch_by(alloc, self, &self.lists, kind, key)
    }

    /// The index of the file passwd.
    pub(crate) fn own_users(&self) -> &UserIndex
        ensures { IsUserIndex (text_of self.now.passwd) result.now }
    {
        &self.users
    }

    /// The index of the file group.
    pub(crate) fn own_groups(&self) -> &GroupIndex
        ensures { IsGroupIndex (text_of self.now.group) result.now }
    {
        &self.groups
    }

    /// The index of a passwd file, if the file has one.
    pub(crate) fn users(&self, file: FileId) -> Option<&UserIndex>
        ensures { IfSome result (λ users. IsUserIndex (text_of (file_of self.now file)) users.now) }
    {
        match file {
            FileId::Passwd => Some(&self.users),
            FileId::ExtraPasswd => Some(&self.extra_users),
            _ => None,
        }
    }

    /// The index of a group file, if the file has one.
    pub(crate) fn groups(&self, file: FileId) -> Option<&GroupIndex>
        ensures { IfSome result (λ groups. IsGroupIndex (text_of (file_of self.now file)) groups.now) }
    {
        match file {
            FileId::Group => Some(&self.groups),
            FileId::ExtraGroup => Some(&self.extra_groups),
            _ => None,
        }
    }

    /// The index of a hosts file, if the file has one.
    pub(crate) fn hosts(&self, file: FileId) -> Option<&HostIndex>
        ensures { IfSome result (λ hosts. IsHostIndex (text_of (file_of self.now file)) hosts.now) }
    {
        match file {
            FileId::Hosts => Some(&self.hosts),
            _ => None,
        }
    }

    /// The index of a services file, if the file has one.
    pub(crate) fn services(&self, file: FileId) -> Option<&ServiceIndex>
        ensures { IfSome result (λ services. IsServiceIndex (text_of (file_of self.now file)) services.now) }
    {
        match file {
            FileId::Services => Some(&self.services),
            _ => None,
        }
    }
}
