//! The statuses that replies have.
ghost use Rattle.std.specs.Prelude.{◌≡◌};
ghost use Rattle.dep_reply.specs.Head.{phrase};
ghost use Rattle.dep_reply.specs.Statuses.{status_number};

use dep_types::Refusal;

/// The status of a reply (RFC 9110, section 15).
#[derive(Clone, Copy)]
pub enum Status {
    /// 200
    Ok,
    /// 201
    Created,
    /// 204
    NoContent,
    /// 400
    BadRequest,
    /// 404
    NotFound,
    /// 405
    MethodNotAllowed,
    /// 410
    Gone,
    /// 412
    PreconditionFailed,
    /// 413
    ContentTooLarge,
    /// 415
    UnsupportedMediaType,
    /// 507, of WebDAV (RFC 4918, section 11.5)
    InsufficientStorage,
}

impl Status {
    /// The status code in the status line (RFC 9112, section 4).
    pub fn number(self) -> u16
        ensures { result ≡ status_number self }
    {
        match self {
            Status::Ok => 200,
            Status::Created => 201,
            Status::NoContent => 204,
            Status::BadRequest => 400,
            Status::NotFound => 404,
            Status::MethodNotAllowed => 405,
            Status::Gone => 410,
            Status::PreconditionFailed => 412,
            Status::ContentTooLarge => 413,
            Status::UnsupportedMediaType => 415,
            Status::InsufficientStorage => 507,
        }
    }

    /// The reason phrase of the status line.
    pub fn phrase(self) -> &'static str
        ensures { result.now ≡ phrase (status_number self) }
    {
        match self {
            Status::Ok => "OK",
            Status::Created => "Created",
            Status::NoContent => "No Content",
            Status::BadRequest => "Bad Request",
            Status::NotFound => "Not Found",
            Status::MethodNotAllowed => "Method Not Allowed",
            Status::Gone => "Gone",
            Status::PreconditionFailed => "Precondition Failed",
            Status::ContentTooLarge => "Content Too Large",
            Status::UnsupportedMediaType => "Unsupported Media Type",
            Status::InsufficientStorage => "Insufficient Storage",
        }
    }
}

impl From<Refusal> for Status {
    ghost use Rattle.std.specs.Prelude.{◌≡◌};
    ghost use Rattle.dep_types.specs.Refusals.{facts_of};
    ghost use Rattle.dep_reply.specs.Statuses.{status_number};

    ghost from_gives = { λ refusal status. status_number status ≡ (facts_of refusal).status };

    /// The status of the reply to a refused request.
    fn from(refusal: Refusal) -> Self {
        match refusal.status() {
            400 => Status::BadRequest,
            404 => Status::NotFound,
            405 => Status::MethodNotAllowed,
            410 => Status::Gone,
            412 => Status::PreconditionFailed,
            413 => Status::ContentTooLarge,
            415 => Status::UnsupportedMediaType,
            _ => Status::InsufficientStorage,
        }
    }
}
