// A whole request, and what a stream of them answers.
ghost use Rattle.std.specs.Prelude.{◌≡◌, IfOk, option_map};
ghost use Rattle.form_request.specs.Params.{first_value};

use std::alloc::Global;
use tuple_values::{Bytes, Memory, Sequence, Text, TryCopy};

/// Who answers a request.
#[derive(Clone, Copy, PartialEq, Eq)]
pub enum Handler {
    /// The path ends in `/stream`.
    Stream,
    /// The path ends in `/update`, `/update/json` or `/update/json/docs`.
    Update,
}

/// A parameter, decoded.
#[derive(Drop)]
pub struct Param {
    pub name: Text,
    pub value: Text,
}

/// Parameters, in the order in which they stand.
pub type Params = Sequence<Param>;

impl TryCopy for Param {
    fn copy(&self, alloc: Global) -> Result<Self, Memory> {
        let name = self.name.copy(alloc)?;
        let value = self.value.copy(alloc)?;
        Ok(Param { name, value })
    }
}

/// A whole request.
pub struct Request {
    pub handler: Handler,
    /// The collection that the path names.
    pub collection: Text,
    /// Those of the target's query and then, for a POST to `/stream`, those of the body.
    pub params: Params,
    pub body: Bytes,
    /// Whether the connection ends with this request.
    pub closes: bool,
    /// Whether its reply may go in chunks (RFC 9112, section 7.1): true for HTTP/1.1, false for
    /// 1.0.
    pub chunks: bool,
}

impl Drop for Request {
    fn drop(self) {
        let Request {
            handler,
            collection,
            params,
            body,
            closes: _,
            chunks: _,
        } = self;
        drop(handler);
        drop(collection);
        drop(params);
        drop(body);
    }
}

/// What a stream of requests answers.
#[derive(Drop)]
pub enum Step100 {
    /// The next request is whole.
    Whole(Request),
    /// The next message is refused with this status, and nothing that follows is read.
    Refused { status: u16 },
    /// The head of the next message has come, and asks for `100 Continue`. Once a message.
    Continue,
    /// The bytes so far decide none of the others.
    Wants,
}

impl Request {
    /// The value of the first parameter of this name.
    pub fn param(&self, name: &str) -> Option<&str>
        ensures { option_map (λ value. value.now) result ≡ first_value name.now self.now.params }
    {
        for param in self.params.as_slice() {
            if param.name.as_str() == name {
                return Some(param.value.as_str());
            }
        }
        None
    }
}
