// What holds of the courses of all requests, and of all responses in chunks.
ghost use Rattle.stream_handler.specs.Outcomes.{ChunksCarryTheBody};
ghost use Rattle.stream_handler.specs.Requests.{RequestsLookFirst};

/// What each request does looks first: each step comes right after a look at its cell.
pub fn requests_look_first()
    ensures { RequestsLookFirst }
{}

/// What the chunks of a response carry is the body that it would have whole, and no chunk but the last is
/// empty (RFC 9112, section 7.1).
pub fn chunks_carry_the_body()
    ensures { ChunksCarryTheBody }
{}
