// One step of a stream of requests.
ghost use Rattle.std.specs.Prelude.{◌≡◌, IfOk, IfErr};
ghost use Rattle.form_request.specs.Heads.{front_of};
ghost use Rattle.form_request.specs.Searches.{IsSearched};
ghost use Rattle.form_request.specs.Streams.{body_answer, front_answer, request_of};
ghost use Rattle.form_request.specs.Turning.{BodyIs, TurnedIs, IsTurn};

use crate::heads::{Front, read_front};
use crate::params::add_params;
use crate::plan::{Plan, Stage};
use crate::search::{FRESH, Search};
use crate::{Params, Request, Step100};
use std::alloc::Global;
use tuple_values::{Bytes, Memory, Names, TryCopy};

/// What has come of a body.
#[derive(Drop)]
pub enum Body {
    /// `100 Continue` is still to be said.
    Asks,
    /// It isn't whole.
    Lacks,
    /// It is whole, and so is the request.
    Has(Request),
}

/// A step: what is answered, where the stream stands then, how many bytes were taken off its
/// front, and how far the search in the others has come.
#[derive(Drop)]
pub struct Turned {
    pub answer: Step100,
    pub stage: Stage,
    pub taken: usize,
    pub search: Search,
}

/// A step that wanted memory: where the stream stood.
#[derive(Drop)]
pub struct Undone {
    pub stage: Stage,
    pub fault: Memory,
}

/// The next step of a stream that stands there and holds these bytes.
pub fn make_turn(
    alloc: Global,
    names: &Names,
    stage: Stage,
    bytes: &[u8],
    search: Search,
) -> Result<Turned, Undone>
    requires { IsSearched (front_of bytes.now) search }
    ensures ok { IfOk result (IsTurn names.now stage bytes.now) }
    ensures err { IfErr result (λ undone. undone.stage ≡ stage) }
{
    match stage {
        Stage::Head => match head_turn(alloc, names, bytes, search) {
            Ok(turned) => Ok(turned),
            Err(fault) => Err(Undone {
                stage: Stage::Head,
                fault,
            }),
        },
        Stage::Body(plan) => match read_body(alloc, &plan, bytes) {
            Ok(body) => Ok(body_turn(plan, body, bytes)),
            Err(fault) => Err(Undone {
                stage: Stage::Body(plan),
                fault,
            }),
        },
        Stage::Stopped(status) => Ok(Turned {
            answer: Step100::Refused { status },
            stage: Stage::Stopped(status),
            taken: 0,
            search,
        }),
        Stage::Closed => Ok(Turned {
            answer: Step100::Wants,
            stage: Stage::Closed,
            taken: 0,
            search,
        }),
    }
}

// A step before or inside a head.
fn head_turn(alloc: Global, names: &Names, bytes: &[u8], start: Search) -> Result<Turned, Memory>
    requires { IsSearched (front_of bytes.now) start }
    ensures { IfOk result (IsTurn names.now Stage.Head bytes.now) }
{
    let (search, front) = read_front(alloc, names, bytes, start)?;
    match front {
        Front::Unfinished => Ok(Turned {
            answer: Step100::Wants,
            stage: Stage::Head,
            taken: 0,
            search,
        }),
        Front::Refused(status) => Ok(Turned {
            answer: Step100::Refused { status },
            stage: Stage::Stopped(status),
            taken: bytes.len(),
            search: FRESH,
        }),
        Front::Taken(plan, place) => {
            let rest = &bytes[place..];
            let body = read_body(alloc, &plan, rest)?;
            let mut turned = body_turn(plan, body, rest);
            turned.taken += place;
            Ok(turned)
        }
    }
}

// A step behind a head, by what has come of the body.
fn body_turn(plan: Plan, body: Body, bytes: &[u8]) -> Turned
    requires { BodyIs plan bytes.now body }
    ensures { TurnedIs bytes.now (body_answer plan bytes.now) result }
{
    match body {
        Body::Asks => Turned {
            answer: Step100::Continue,
            stage: Stage::Body(Plan {
                asks: false,
                ..plan
            }),
            taken: 0,
            search: FRESH,
        },
        Body::Lacks => Turned {
            answer: Step100::Wants,
            stage: Stage::Body(plan),
            taken: 0,
            search: FRESH,
        },
        Body::Has(request) if plan.closes => Turned {
            answer: Step100::Whole(request),
            stage: Stage::Closed,
            taken: bytes.len(),
            search: FRESH,
        },
        Body::Has(request) => Turned {
            answer: Step100::Whole(request),
            stage: Stage::Head,
            taken: plan.length as usize,
            search: FRESH,
        },
    }
}

// What has come of the body.
fn read_body(alloc: Global, plan: &Plan, bytes: &[u8]) -> Result<Body, Memory>
    ensures { IfOk result (BodyIs plan.now bytes.now) }
{
    if plan.asks {
        return Ok(Body::Asks);
    }
    let length = plan.length as usize;
    if bytes.len() < length {
        return Ok(Body::Lacks);
    }
    let request = make_request(alloc, plan, &bytes[..length])?;
    Ok(Body::Has(request))
}

fn make_request(alloc: Global, plan: &Plan, body: &[u8]) -> Result<Request, Memory>
    ensures { IfOk result (λ request. request ≡ request_of plan.now body.now) }
{
    let params = all_params(alloc, plan, body)?;
    let collection = plan.collection.copy(alloc)?;
    let body = Vec::from_slice(alloc, body)?;
    Ok(Request {
        handler: plan.handler,
        collection,
        params,
        body: Bytes::from_vec(body),
        closes: plan.closes,
        chunks: plan.chunks,
    })
}

fn all_params(alloc: Global, plan: &Plan, body: &[u8]) -> Result<Params, Memory>
    ensures { IfOk result (λ params. params ≡ (request_of plan.now body.now).params) }
{
    let mut params = plan.params.copy(alloc)?;
    if !plan.is_form {
        return Ok(params);
    }
    add_params(alloc, &mut params, body)?;
    Ok(params)
}
