//! What the head of a reply says.
use crate::status::Status;
use dep_moment::Moment;
use std::marker::Model;

/// What the head of a reply says. The texts stand in the head as they are, so none may hold a line break.
#[derive(Drop)]
pub struct Reply<'a> {
    /// The status (RFC 9110, section 15).
    pub status: Status,
    /// The moment of the reply (RFC 9110, section 6.6.1).
    pub date: Moment,
    /// The media type of the content (RFC 9110, section 8.3).
    pub content_type: Option<&'a str>,
    /// The length of the content in bytes (RFC 9110, section 8.6).
    pub content_length: Option<u64>,
    /// The number of the entity tag, which stands in quotation marks (RFC 9110, section 8.8.3).
    pub tag: Option<u64>,
    /// The URL of what was made (RFC 9110, section 10.2.2).
    pub location: Option<&'a str>,
    /// The methods of the resource, with commas between them (RFC 9110, section 10.2.1).
    pub allow: Option<&'a str>,
    /// Whether the connection is closed after the reply (RFC 9112, section 9.6).
    pub closes: bool,
}

impl<'a> Model for Reply<'a> {
    ghost use Rattle.std.specs.Option.{option_copied};
    ghost use Rattle.dep_reply.specs.Head.{ReplyHead};
    ghost use Rattle.dep_reply.specs.Statuses.{status_number};

    ghost Value = { ReplyHead };

    ghost view = { λ r. record {
      status = status_number r.status;
      date = r.date;
      content_type = option_copied r.content_type;
      content_length = r.content_length;
      tag = r.tag;
      location = option_copied r.location;
      allow = option_copied r.allow;
      closes = r.closes;
    } };
}
