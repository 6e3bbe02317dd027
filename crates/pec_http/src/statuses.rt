ghost use Rattle.std.specs.Prelude.{◌≡◌, ◌≤◌, length};
ghost use Rattle.pec_http.specs.Statuses.{kind_text, number_of, phrase_of};

use http::StatusCode;

/// The statuses that a desk's answers have (RFC 9110, section 15; RFC 6585, section 5; RFC 4918, section 11.5).
#[derive(Clone, Copy, Debug, PartialEq, Eq)]
pub enum Status {
    Ok,
    Created,
    BadRequest,
    Unauthorized,
    Forbidden,
    NotFound,
    MethodNotAllowed,
    Conflict,
    LengthRequired,
    PayloadTooLarge,
    UnprocessableEntity,
    RequestHeaderFieldsTooLarge,
    InternalServerError,
    ServiceUnavailable,
    InsufficientStorage,
}

impl Status {
    /// The status as its three digits say it. It takes no memory.
    pub fn number(self) -> u16
        ensures { result ≡ number_of self }
    {
        match self {
            Status::Ok => 200,
            Status::Created => 201,
            Status::BadRequest => 400,
            Status::Unauthorized => 401,
            Status::Forbidden => 403,
            Status::NotFound => 404,
            Status::MethodNotAllowed => 405,
            Status::Conflict => 409,
            Status::LengthRequired => 411,
            Status::PayloadTooLarge => 413,
            Status::UnprocessableEntity => 422,
            Status::RequestHeaderFieldsTooLarge => 431,
            Status::InternalServerError => 500,
            Status::ServiceUnavailable => 503,
            Status::InsufficientStorage => 507,
        }
    }

    /// The canonical phrase. It takes no memory.
    pub(crate) fn phrase(self) -> &'static [u8]
        ensures value { result.now ≡ phrase_of self }
        ensures short { length result.now ≤ 31 }
    {
        let Ok(code) = StatusCode::from_u16(self.number()) else {
            return &[];
        };
        match code.canonical_reason() {
            Some(phrase) => phrase.as_bytes(),
            None => &[],
        }
    }
}

/// What kind of text an answer's body is.
#[derive(Clone, Copy, Debug, PartialEq, Eq)]
pub enum Kind {
    Plain,
    /// A message of mail.
    Message,
}

impl Kind {
    /// The media type (RFC 2046, sections 4.1.3 and 5.2.1). It takes no memory.
    pub(crate) fn text(self) -> &'static [u8]
        ensures value { result.now ≡ kind_text self }
        ensures short { length result.now ≤ 14 }
    {
        match self {
            Kind::Plain => b"text/plain",
            Kind::Message => b"message/rfc822",
        }
    }
}
