//! What a content is for.
ghost use Rattle.std.specs.Prelude.{◌≡◌, IfOk, false, codes};
ghost use Rattle.std.specs.Option.{option_copied};
ghost use Rattle.dep_fields.specs.Kinds.{IsAttachment, IsKind, IsKindOf, flag_in, is_by_reference, truth};
ghost use Rattle.dep_fields.specs.Values.{IsRead};

use crate::field::Field;
use crate::opening::{number, read_opening};
use dep_fixity::DigestList;
use dep_params::{Disposition, ParamFault, read_disposition};
use dep_types::Text;
use std::alloc::{AllocError, Global};

/// What a staged upload is to be (SWORD 3.0, segmented upload). A number above 64 bits stands as the greatest of 64
/// bits, which is above each limit.
#[derive(Clone, Copy)]
pub struct Opening {
    /// How many bytes the whole content has.
    pub size: u64,
    /// In how many segments it comes.
    pub count: u64,
    /// How many bytes each segment but the last has.
    pub segment_size: u64,
    /// The digests that are promised of the whole content.
    pub digest: DigestList,
}

/// What the content of a request is for, by its Content-Disposition (RFC 6266; SWORD 3.0).
#[derive(Drop)]
pub enum Kind {
    /// A file under this name.
    File(Text),
    /// A metadata document.
    Metadata,
    /// A document of references.
    References,
    /// Nothing yet: a staged upload is to begin.
    Opening(Opening),
    /// The segment of a staged upload with this number.
    Segment(u64),
}

/// Whether the content is a document of references (SWORD 3.0, by-reference deposit).
pub fn is_by_reference(disposition: &Field<Kind>) -> bool
    ensures { result ≡ is_by_reference disposition.now }
{
    match disposition {
        Field::Value(Kind::References) => true,
        _ => false,
    }
}

/// The kind that a Content-Disposition text says, or bad.
pub(crate) fn read_kind(alloc: Global, text: &[u8]) -> Result<Field<Kind>, AllocError>
    ensures { IfOk result (IsRead (IsKind text.now)) }
{
    match read_disposition(alloc, text) {
        Ok(disposition) => kind_of(alloc, &disposition),
        Err(ParamFault::Malformed) => Ok(Field::Bad),
        Err(ParamFault::Repeated) => Ok(Field::Bad),
        Err(ParamFault::Memory) => Err(AllocError),
        Err(ParamFault::NoName) => unreachable!(),
    }
}

fn kind_of(alloc: Global, disposition: &Disposition) -> Result<Field<Kind>, AllocError>
    ensures { IfOk result (IsRead (IsKindOf disposition.now)) }
{
    let form = disposition.form();
    if form == b"attachment".as_slice() {
        return attached(alloc, disposition);
    }
    if form == b"segment-init".as_slice() {
        return Ok(opened(disposition));
    }
    if form == b"segment".as_slice() {
        return Ok(segment_of(disposition));
    }
    Ok(Field::Bad)
}

fn attached(alloc: Global, disposition: &Disposition) -> Result<Field<Kind>, AllocError>
    requires { disposition.now.form ≡ codes "attachment" }
    ensures { IfOk result (IsRead (IsKindOf disposition.now)) }
{
    let Some(metadata) = flag(disposition.parameter(b"metadata")) else {
        return Ok(Field::Bad);
    };
    let Some(by_reference) = flag(disposition.parameter(b"by-reference")) else {
        return Ok(Field::Bad);
    };
    match (metadata, by_reference) {
        (true, true) => Ok(Field::Bad),
        (true, false) => Ok(Field::Value(Kind::Metadata)),
        (false, true) => Ok(Field::Value(Kind::References)),
        (false, false) => named_file(alloc, disposition),
    }
}

// A file under the name that the disposition gives.
fn named_file(alloc: Global, disposition: &Disposition) -> Result<Field<Kind>, AllocError>
    requires { IsAttachment disposition.now false false }
    ensures { IfOk result (IsRead (IsKindOf disposition.now)) }
{
    match disposition.file_name(alloc) {
        Ok(name) => Ok(Field::Value(Kind::File(Text::new(name)))),
        Err(ParamFault::Memory) => Err(AllocError),
        Err(_) => Ok(Field::Bad),
    }
}

fn opened(disposition: &Disposition) -> Field<Kind>
    requires { disposition.now.form ≡ codes "segment-init" }
    ensures { IsRead (IsKindOf disposition.now) result }
{
    match read_opening(disposition) {
        Some(opening) => Field::Value(Kind::Opening(opening)),
        None => Field::Bad,
    }
}

fn segment_of(disposition: &Disposition) -> Field<Kind>
    requires { disposition.now.form ≡ codes "segment" }
    ensures { IsRead (IsKindOf disposition.now) result }
{
    match number(disposition.parameter(b"segment_number")) {
        Some(segment) => Field::Value(Kind::Segment(segment)),
        None => Field::Bad,
    }
}

// A truth that is false where nothing is said.
fn flag(text: Option<&[u8]>) -> Option<bool>
    ensures { result ≡ flag_in (option_copied text.entry) }
{
    match text {
        Some(text) => truth(text),
        None => Some(false),
    }
}

/// `true` or `false`, in any letter case.
pub(crate) fn truth(text: &[u8]) -> Option<bool>
    ensures { result ≡ truth text.now }
{
    if text.eq_ignore_ascii_case(b"true") {
        Some(true)
    } else if text.eq_ignore_ascii_case(b"false") {
        Some(false)
    } else {
        None
    }
}
