// `Content`: the seven source files at one moment.
ghost use Rattle.std.specs.Prelude.{◌≡◌, ◌≤◌, ◌↔◌, IsTrue, IfSome, Option, length};
ghost use Rattle.std.specs.Arc.{arc_value};
ghost use Rattle.std.specs.Option.{option_copied, option_map};
ghost use Rattle.nsc_model.specs.Files.{FilesFit, no_files, file_of, with_file, file_limit, same_file, same_files};

use crate::kind::FileId;
use nsc_base::Bytes;
use std::marker::Model;
use std::sync::Arc;

// Whether two files are both absent, or have the same bytes.
fn is_same_file(a: Option<&[u8]>, b: Option<&[u8]>) -> bool
    ensures { result ≡ same_file (option_copied a.entry) (option_copied b.entry) }
{
    match (a, b) {
        (None, None) => true,
        (Some(a), Some(b)) => a == b,
        (None, Some(_)) | (Some(_), None) => false,
    }
}

// Bytes that are a content's own, or shared with other contents.
#[derive(Debug, Drop)]
enum Held {
    Own(Bytes),
    Shared(Arc<Bytes>),
}

// The bytes of a file that is present.
#[derive(Debug, Drop)]
struct Text {
    held: Held,
}

impl Model for Text {
    ghost use Rattle.std.specs.Prelude.{List, ℕ};
    ghost use Rattle.nsc_model.specs.Held.{held_bytes};

    ghost Value = { List ℕ };

    ghost view = { λ text. held_bytes text.held };
}

impl Text {
    ghost use Rattle.std.specs.Prelude.{◌≡◌};
    ghost use Rattle.std.specs.Arc.{arc_value};

    fn own(bytes: Bytes) -> Text
        ensures { result ≡ bytes }
    {
        Text {
            held: Held::Own(bytes),
        }
    }

    fn shared(bytes: Arc<Bytes>) -> Text
        ensures { result ≡ arc_value bytes }
    {
        Text {
            held: Held::Shared(bytes),
        }
    }

    fn as_slice(&self) -> &[u8]
        ensures { result.now ≡ self.now }
    {
        match &self.held {
            Held::Own(bytes) => bytes.as_slice(),
            Held::Shared(bytes) => bytes.as_slice(),
        }
    }
}

/// The eight source files as they stood at one moment, each absent or its bytes, at most 16,777,216 of them.
#[derive(Debug, Drop)]
pub struct Content {
    files: [Option<Text>; 8],
}

impl Model for Content {
    ghost use Rattle.nsc_model.specs.Content.{Content};
    ghost use Rattle.nsc_model.specs.Files.{files_in, FilesFit};

    ghost Value = { Content };

    ghost view = { λ c. files_in c.files };

    ghost invariant = { λ c. FilesFit (files_in c.files) };
}

impl Content {
    /// The longest file, in bytes.
    pub const LIMIT: usize = 16_777_216;

    /// No file of it is longer than a file may be.
    pub fn learn(&self)
        ensures { FilesFit self.now }
    {
        let _ = &self.files;
    }

    /// The content in which every file is absent.
    pub fn none() -> Content
        ensures { result ≡ no_files }
    {
        Content {
            files: [None, None, None, None, None, None, None, None],
        }
    }

    /// Makes one file absent, or these bytes. The other files stay.
    pub fn set(&mut self, file: FileId, bytes: Option<Bytes>)
        requires { IfSome bytes (λ b. length b ≤ file_limit) }
        ensures { self.new ≡ with_file self.old file bytes }
    {
        self.files[file as usize] = bytes.map(Text::own);
    }

    /// Makes one file absent, or these bytes, which other contents may share. The other files stay.
    pub fn share(&mut self, file: FileId, bytes: Option<Arc<Bytes>>)
        requires { IfSome bytes (λ b. length (arc_value b) ≤ file_limit) }
        ensures { self.new ≡ with_file self.old file (option_map (λ b. arc_value b) bytes) }
    {
        self.files[file as usize] = bytes.map(Text::shared);
    }

    /// The bytes of a file, at most 16,777,216; `None` where it is absent. The other files have no more, either.
    pub fn file(&self, file: FileId) -> Option<&[u8]>
        ensures value { option_copied result ≡ file_of self.now file }
        ensures bound { IfSome result (λ b. length b.now ≤ file_limit) }
        ensures all_fit { FilesFit self.now }
    {
        self.files[file as usize]
            .as_ref()
            .map(|text| text.as_slice())
    }

    /// Whether two contents are the same, file by file.
    pub fn is_same(&self, other: &Content) -> bool
        ensures { result ≡ same_files self.now other.now }
    {
        self.has_same(other, FileId::Switch)
            && self.has_same(other, FileId::Passwd)
            && self.has_same(other, FileId::Group)
            && self.has_same(other, FileId::Hosts)
            && self.has_same(other, FileId::Services)
            && self.has_same(other, FileId::ExtraPasswd)
            && self.has_same(other, FileId::ExtraGroup)
            && self.has_same(other, FileId::Netgroup)
    }

    // Whether one file is the same in both.
    fn has_same(&self, other: &Content, file: FileId) -> bool
        ensures { result ≡ same_file (file_of self.now file) (file_of other.now file) }
    {
        is_same_file(self.file(file), other.file(file))
    }
}
