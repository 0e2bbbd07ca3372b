// How responses are framed.
ghost use Rattle.std.specs.Prelude.{◌≡◌};
ghost use Rattle.stream_handler.specs.Outcomes.{framing_of};

use form_request::Request;

/// How the response to a request is framed (RFC 9112, sections 6, 7.1 and 9.6).
#[derive(Clone, Copy, PartialEq, Eq)]
pub struct Framing {
    /// Whether the connection closes with it.
    pub closes: bool,
    /// Whether a result set goes in chunks.
    pub chunks: bool,
}

impl Framing {
    /// That of the response to this request.
    pub fn of(request: &Request) -> Framing
        ensures { result ≡ framing_of request.now }
    {
        Framing {
            closes: request.closes,
            chunks: request.chunks,
        }
    }
}
