//! What has to be read of the archive for a reply, and what is read.
ghost use Rattle.std.specs.Prelude.{◌≡◌};
ghost use Rattle.dep_types.specs.declared.counters.Counters.{Counters as ACounters};
ghost use Rattle.dep_types.specs.declared.target.Method.TheVariants.{Post, Put};
ghost use Rattle.dep_answers.specs.ReadSets.{read_set_in_bag, read_set_of, tag_read_set};

use crate::performed::FileId;
use dep_bag::{TagFile, file_number, tag_file};
use dep_manifest::Algorithm;
use dep_types::{
    Counters, FileRow, List, Metadata, Method, ObjectRow, ObjectView, Resource, Target, UploadRow,
};

/// What has to be read of the archive for a reply.
#[derive(Clone, Copy)]
pub enum ReadSet {
    /// Nothing has to be read.
    Nothing,
    /// The object with this number: its row, its metadata, its files and their SHA-512 values.
    Object(u64),
    /// An object without its metadata.
    Payload(u64),
    /// An object without its metadata and the SHA-512 values of its files.
    Files(u64),
    /// An object without its metadata and files.
    ObjectRow(u64),
    /// An object without its files.
    Metadata(u64),
    /// A file without its bytes.
    File(FileId),
    /// An upload with the numbers of the segments that were received.
    Upload(u64),
}

/// What was read of the archive for a reply.
#[derive(Drop)]
pub enum Shown {
    /// Nothing had to be read, or nothing is there.
    Nothing,
    /// An object with its metadata and files.
    Object(ObjectView),
    /// An object with its files. Its metadata isn't read, and is empty here, as are the SHA-512 values where
    /// they weren't asked for.
    Files(ObjectView),
    /// An object without its metadata and files.
    ObjectRow(ObjectRow),
    /// An object without its files.
    Metadata {
        /// The object's row.
        object: ObjectRow,
        /// Its metadata.
        metadata: Metadata,
    },
    /// A file without its bytes.
    File(FileRow),
    /// An upload without the bytes of its segments.
    Upload {
        /// The upload's row.
        upload: UploadRow,
        /// The numbers of the segments that were received, ascending.
        received: List<u64>,
    },
}

impl ReadSet {
    ghost use Rattle.std.specs.Prelude.{◌≡◌};
    ghost use Rattle.dep_answers.specs.ReadSets.{read_set_at, read_set_of, reads_many_rows};

    /// Returns what has to be read for the reply to a request that was accepted and carried out, where the
    /// next numbers are now these: an object or an upload that it made has the last number before them. It
    /// takes no memory.
    pub fn of(target: &Target, next: &Counters) -> ReadSet
        ensures { result ≡ read_set_of next.now target.now.resource target.now.method }
    {
        match target.method {
            Method::Get => ReadSet::shown_by(&target.resource, false),
            Method::Head => ReadSet::shown_by(&target.resource, true),
            Method::Post => posted(&target.resource, next),
            Method::Put => put(&target.resource),
            Method::Delete => ReadSet::Nothing,
        }
    }

    /// Returns what has to be read to show a resource, or in a bare reply (a HEAD) for its length. It takes no memory.
    pub fn shown_by(resource: &Resource, is_head_only: bool) -> ReadSet
        ensures { result ≡ read_set_at resource.now is_head_only }
    {
        match resource {
            Resource::Object(object) | Resource::BagList(object) => ReadSet::Files(*object),
            Resource::BagFile(object, path) => in_bag(*object, path.as_slice(), is_head_only),
            Resource::Metadata(object) => ReadSet::Metadata(*object),
            Resource::File(object, file) => ReadSet::File(FileId {
                object: *object,
                file: *file,
            }),
            Resource::Upload(upload) => ReadSet::Upload(*upload),
            Resource::Service | Resource::FileSet(_) | Resource::Staging => ReadSet::Nothing,
        }
    }

    /// Whether all the texts of an object's metadata are read, or all its files.
    pub fn reads_many_rows(self) -> bool
        ensures { result ≡ reads_many_rows self }
    {
        matches!(
            self,
            ReadSet::Object(_) | ReadSet::Payload(_) | ReadSet::Files(_) | ReadSet::Metadata(_)
        )
    }
}

// What is read to show a path of a bag.
fn in_bag(object: u64, path: &[u8], is_head_only: bool) -> ReadSet
    ensures { result ≡ read_set_in_bag object path.now is_head_only }
{
    match file_number(path) {
        Some(file) => ReadSet::File(FileId { object, file }),
        None => in_tag_file(object, tag_file(path), is_head_only),
    }
}

// What is read to show a tag file, or in a bare reply for its length. A manifest is as long whatever its digests are.
fn in_tag_file(object: u64, file: Option<TagFile>, is_head_only: bool) -> ReadSet
    ensures { result ≡ tag_read_set object file is_head_only }
{
    match (file, is_head_only) {
        (Some(TagFile::Declaration), _) => ReadSet::ObjectRow(object),
        (Some(TagFile::Metadata), _) => ReadSet::Metadata(object),
        (Some(TagFile::Manifest(Algorithm::Sha512)), false) => ReadSet::Payload(object),
        (Some(TagFile::TagManifest(_)), false) => ReadSet::Object(object),
        (Some(TagFile::TagManifest(_)), true) => ReadSet::ObjectRow(object),
        _ => ReadSet::Files(object),
    }
}

// What is read once something was posted.
fn posted(resource: &Resource, next: &Counters) -> ReadSet
    ensures { result ≡ read_set_of next.now resource.now Post }
{
    match *resource {
        Resource::Service => ReadSet::Files(next.object.saturating_sub(1)),
        Resource::Object(object) => ReadSet::Files(object),
        Resource::Staging => ReadSet::Upload(next.upload.saturating_sub(1)),
        _ => ReadSet::Nothing,
    }
}

// What is read once something was put in its place.
fn put(resource: &Resource) -> ReadSet
    ensures { (next : ACounters) → result ≡ read_set_of next resource.now Put }
{
    match *resource {
        Resource::Object(object) => ReadSet::Files(object),
        Resource::Metadata(object) | Resource::FileSet(object) => ReadSet::ObjectRow(object),
        Resource::File(object, file) => ReadSet::File(FileId { object, file }),
        _ => ReadSet::Nothing,
    }
}
