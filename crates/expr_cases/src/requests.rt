// Requests of cases.
use form_request::{Handler, Param, Params, Request};
use std::alloc::Global;
use tuple_values::{Bytes, Memory, Names, Text};

fn push_param(alloc: Global, params: &mut Params, name: &str, value: &str) -> Result<(), Memory> {
    let name = Text::of(alloc, name)?;
    let value = Text::of(alloc, value)?;
    params.push(Param { name, value })
}

fn commit_params(alloc: Global, commit: &str) -> Result<Params, Memory> {
    let mut params = Params::new(alloc);
    push_param(alloc, &mut params, "commit", commit)?;
    Ok(params)
}

fn body_of(alloc: Global, body: &str) -> Result<Bytes, Memory> {
    let mut bytes = Bytes::new(alloc);
    bytes.extend(body.as_bytes())?;
    Ok(bytes)
}

// An update of a collection, with a commit or without one.
fn update(alloc: Global, collection: &str, commit: &str, body: &str) -> Result<Request, Memory> {
    Ok(Request {
        handler: Handler::Update,
        collection: Text::of(alloc, collection)?,
        params: commit_params(alloc, commit)?,
        body: body_of(alloc, body)?,
        closes: false,
        chunks: true,
    })
}

/// The update that the words say: a collection, and a body behind a blank.
pub fn update_of(alloc: Global, commit: &str, words: &str) -> Result<Request, Memory> {
    match words.split_once(' ') {
        Some((collection, body)) => update(alloc, collection, commit, body),
        None => update(alloc, words, commit, ""),
    }
}

fn push_action(alloc: Global, params: &mut Params, words: &str) -> Result<(), Memory> {
    match words.split_once(' ') {
        Some((action, id)) => {
            push_param(alloc, params, "action", action)?;
            push_param(alloc, params, "id", id)
        }
        None => push_param(alloc, params, "action", words),
    }
}

// The parameters that the words say: an action, and perhaps an id behind a blank.
fn action_params(alloc: Global, words: &str) -> Result<Params, Memory> {
    let mut params = Params::new(alloc);
    push_action(alloc, &mut params, words)?;
    Ok(params)
}

// The name of the first of these collections.
fn first_name(alloc: Global, names: &Names) -> Result<Text, Memory> {
    match names.as_slice() {
        [first, ..] => Text::of(alloc, first.name.as_str()),
        [] => Text::of(alloc, ""),
    }
}

/// The action that the words say, asked of the first of these collections.
pub fn action_of(alloc: Global, names: &Names, words: &str) -> Result<Request, Memory> {
    Ok(Request {
        handler: Handler::Stream,
        collection: first_name(alloc, names)?,
        params: action_params(alloc, words)?,
        body: Bytes::new(alloc),
        closes: false,
        chunks: true,
    })
}
