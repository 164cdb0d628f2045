// Paths of the source files: on the system, or in a folder.
ghost use Rattle.std.specs.Prelude.{◌≡◌, IfOk, string_bytes};
ghost use Rattle.std.specs.Option.{option_copied};
ghost use Rattle.nsc_outside.specs.FileSets.{system_path, folder_path, path_of};

use nsc_base::NoMemory;
use nsc_model::FileId;
use std::alloc::Global;

// Where a system keeps its files.
fn system_path(file: FileId) -> &'static str
    ensures { result.now ≡ system_path file }
{
    match file {
        FileId::Switch => "/etc/nsswitch.conf",
        FileId::Passwd => "/etc/passwd",
        FileId::Group => "/etc/group",
        FileId::Hosts => "/etc/hosts",
        FileId::Services => "/etc/services",
        FileId::ExtraPasswd => "/var/lib/extrausers/passwd",
        FileId::ExtraGroup => "/var/lib/extrausers/group",
        FileId::Netgroup => "/etc/netgroup",
    }
}

// Where a folder keeps them, seen from the folder.
fn folder_path(file: FileId) -> &'static str
    ensures { result.now ≡ folder_path file }
{
    match file {
        FileId::Switch => "nsswitch.conf",
        FileId::Passwd => "passwd",
        FileId::Group => "group",
        FileId::Hosts => "hosts",
        FileId::Services => "services",
        FileId::ExtraPasswd => "extrausers/passwd",
        FileId::ExtraGroup => "extrausers/group",
        FileId::Netgroup => "netgroup",
    }
}

// The path of a file: in this folder, or where the system keeps it.
pub(crate) fn path_of(alloc: Global, folder: Option<&str>, file: FileId) -> Result<String, NoMemory>
    ensures { IfOk result (λ path. string_bytes path ≡ path_of (option_copied folder.entry) file) }
{
    let Some(folder) = folder else {
        return Ok(String::from_str(alloc, system_path(file))?);
    };
    let mut path = String::from_str(alloc, folder)?;
    path.push_str("/")?;
    path.push_str(folder_path(file))?;
    Ok(path)
}
