// The search for the end of a head, which goes on where it stopped.
ghost use Rattle.std.specs.Prelude.{◌≡◌, ◌<◌, ◌≤◌, length, true, false, IfSome};
ghost use Rattle.form_request.specs.Ends.{head_length, blank_len, empty_len};
ghost use Rattle.form_request.specs.Heads.{front_of};
ghost use Rattle.form_request.specs.Searches.{IsSearched, TurnIs, EndIs};

/// How far the search has come.
#[derive(Clone, Copy)]
pub struct Search {
    /// Once the head has begun, the number of bytes of the empty lines before it.
    pub blank: usize,
    /// The number of bytes that need not be looked at again.
    pub seen: usize,
    /// Whether a line that isn't empty has begun.
    pub begun: bool,
}

/// What a few more bytes show.
#[derive(Clone, Copy)]
pub enum Turn {
    /// The search goes on from there.
    On(Search),
    /// The head ends there.
    Ends(usize),
    /// More bytes are needed.
    Waits,
}

/// A search that has seen nothing.
pub const FRESH: Search = Search {
    blank: 0,
    seen: 0,
    begun: false,
};

/// Searches on, and answers where the head ends, if its end is there.
pub fn head_end(bytes: &[u8], start: Search) -> (Search, Option<usize>)
    requires { IsSearched bytes.now start }
    ensures searched { IsSearched bytes.now result.0 }
    ensures end { result.1 ≡ head_length bytes.now }
    ensures found { IfSome result.1 (EndIs bytes.now result.0) }
{
    let mut at = start;
    while at.seen < bytes.len() {
        match next_turn(bytes, at) {
            Turn::On(next) => at = next,
            Turn::Ends(end) => return (at, Some(end)),
            Turn::Waits => return (at, None),
        }
    }
    (at, None)
}

fn next_turn(bytes: &[u8], at: Search) -> Turn
    requires searched { IsSearched bytes.now at }
    requires more { at.seen < length bytes.now }
    ensures { TurnIs bytes.now at result }
{
    if at.begun {
        inside(bytes, at)
    } else {
        before(bytes, at)
    }
}

// Before the head: an empty line is passed, and any other line begins the head.
fn before(bytes: &[u8], at: Search) -> Turn
    requires searched { IsSearched bytes.now at }
    requires more { at.seen < length bytes.now }
    requires state { at.begun ≡ false }
    ensures { TurnIs bytes.now at result }
{
    let seen = at.seen;
    if bytes[seen] == b'\n' {
        return Turn::On(Search {
            seen: seen + 1,
            ..at
        });
    }
    if bytes[seen] != b'\r' {
        return Turn::On(Search {
            blank: seen,
            seen: seen + 1,
            begun: true,
        });
    }
    if bytes.len() - seen == 1 {
        return Turn::Waits;
    }
    if bytes[seen + 1] == b'\n' {
        return Turn::On(Search {
            seen: seen + 2,
            ..at
        });
    }
    Turn::On(Search {
        blank: seen,
        seen: seen + 2,
        begun: true,
    })
}

// Inside the head: it ends with the first empty line behind a line feed.
fn inside(bytes: &[u8], at: Search) -> Turn
    requires searched { IsSearched bytes.now at }
    requires more { at.seen < length bytes.now }
    requires state { at.begun ≡ true }
    ensures { TurnIs bytes.now at result }
{
    let seen = at.seen;
    let left = bytes.len() - seen;
    if bytes[seen] != b'\n' {
        return Turn::On(Search {
            seen: seen + 1,
            ..at
        });
    }
    if left == 1 {
        return Turn::Waits;
    }
    if bytes[seen + 1] == b'\n' {
        return Turn::Ends(seen + 2);
    }
    if bytes[seen + 1] != b'\r' {
        return Turn::On(Search {
            seen: seen + 2,
            ..at
        });
    }
    if left == 2 {
        return Turn::Waits;
    }
    if bytes[seen + 2] == b'\n' {
        return Turn::Ends(seen + 3);
    }
    Turn::On(Search {
        seen: seen + 3,
        ..at
    })
}

/// The number of bytes of the empty lines at the front, of which the search has seen some.
pub fn blank_lines(bytes: &[u8], at: Search) -> usize
    requires { IsSearched (front_of bytes.now) at }
    ensures value { result ≡ blank_len bytes.now }
    ensures within { result ≤ length bytes.now }
{
    if at.begun {
        return at.blank;
    }
    let mut passed = at.seen;
    while passed < bytes.len() {
        let empty = empty_line(&bytes[passed..]);
        if empty == 0 {
            return passed;
        }
        passed += empty;
    }
    passed
}

// The number of bytes of the empty line at the front, 0 where there is none.
fn empty_line(bytes: &[u8]) -> usize
    ensures value { result ≡ empty_len bytes.now }
    ensures within { result ≤ length bytes.now }
{
    match bytes {
        [b'\n', ..] => 1,
        [b'\r', b'\n', ..] => 2,
        _ => 0,
    }
}
