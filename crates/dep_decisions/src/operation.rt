//! Requests for resources.

use dep_fields::{IfMatch, SwordFields};
use dep_fixity::HashedOctets;
use dep_types::Target;

/// A request for a resource and a method that it has.
#[derive(Drop)]
pub struct Operation<'a> {
    /// What the path names, and the method.
    pub target: Target,
    /// What the fields of SWORD 3.0 say.
    pub fields: SwordFields,
    /// The entity tags that the request asks for (RFC 9110, section 13.1.1).
    pub if_match: Option<IfMatch<'a>>,
    /// The bytes of the body; a GET, a HEAD and a DELETE ignore them.
    pub content: HashedOctets,
    /// The connection is closed after the reply.
    pub closes: bool,
}
