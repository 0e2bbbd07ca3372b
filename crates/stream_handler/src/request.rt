// Requests, carried out at a site.
ghost use Rattle.std.specs.Prelude.{◌≡◌, ◌<◌, IfOk, codes, option_map};
ghost use Rattle.exchange_rules.specs.Calls.{Carried};
ghost use Rattle.form_request.specs.Params.{first_value};
ghost use Rattle.json_text.specs.Updates.{update_in};
ghost use Rattle.topic_book.specs.Fitness.{shards_of};
ghost use Rattle.stream_handler.specs.Asks.{acted_ask, ask_of, handled_ask};
ghost use Rattle.stream_handler.specs.Boards.{IsAsked, board_state};
ghost use Rattle.stream_handler.specs.Questions.{Asks, CarriedTo};
ghost use Rattle.stream_handler.specs.Refusals.{refusal};
ghost use Rattle.stream_handler.specs.Requests.{CarriedWith, acted_course, handled, is_true, request_course, update_course};
ghost use Rattle.root_runs.specs.Stays.{Stays};

use crate::Outcome;
use crate::action::action_question;
use crate::expression::stream_question;
use crate::question::{Question, ask};
use crate::refusal::refusal_text;
use crate::update::run_update;
use daemon_board::Daemons;
use form_request::{Handler, Request};
use io_edge::Gate;
use std::alloc::Global;
use std::thread::Threads;
use stream_site::{Turns, shards_of};
use tuple_values::{Memory, Text};

// Whether a parameter asks for a commit.
fn is_true(value: Option<&str>) -> bool
    ensures { result ≡ is_true (option_map (λ s. s.now) value.entry) }
{
    match value {
        Some(text) => text == "true",
        None => false,
    }
}

// What an action asks of the board, or where there is none an expression, which is carried out at
// the site.
fn acted_question<T: Turns, R: Threads + Sync, G: Gate>(
    rt: &R,
    alloc: Global,
    site: &mut T,
    request: &Request,
    gate: &G,
) -> Result<Question, Memory>
    ensures course { CarriedTo (T.writer site.old) (T.writer site.new) (λ told.
        acted_course (T.layout site.old) told request.now.params
        (first_value (codes "action") request.now.params)) result }
    ensures asks { IfOk result (Asks (acted_ask (T.layout site.old).names request.now.params
        (first_value (codes "action") request.now.params))) }
    ensures stays { Stays T.layout T.home T.free site.old site.new }
{
    match request.param("action") {
        Some(action) => action_question(alloc, action, request.param("id")),
        None => stream_question(rt, alloc, site, request.param("expr"), gate),
    }
}

// What an update does.
fn run_updated<T: Turns>(alloc: Global, site: &mut T, request: &Request) -> Result<Outcome, Memory>
    requires known { 0 < shards_of (T.layout site.old).names request.now.collection }
    ensures course { Carried (T.writer site.old) (T.writer site.new)
        (update_course (T.layout site.old) request.now.collection
        (is_true (first_value (codes "commit") request.now.params)) (update_in request.now.body))
        result }
    ensures stays { Stays T.layout T.home T.free site.old site.new }
{
    let commit = is_true(request.param("commit"));
    run_update(
        alloc,
        site,
        &request.collection,
        commit,
        request.body.as_slice(),
    )
}

// What a request does at a collection that is there, and what it asks of the board.
fn handled_question<T: Turns, R: Threads + Sync, G: Gate>(
    rt: &R,
    alloc: Global,
    site: &mut T,
    request: &Request,
    gate: &G,
) -> Result<Question, Memory>
    requires known { 0 < shards_of (T.layout site.old).names request.now.collection }
    ensures course { CarriedTo (T.writer site.old) (T.writer site.new) (λ told.
        handled (T.layout site.old) told request.now request.now.handler) result }
    ensures asks { IfOk result
        (Asks (handled_ask (T.layout site.old).names request.now request.now.handler)) }
    ensures stays { Stays T.layout T.home T.free site.old site.new }
{
    match request.handler {
        Handler::Stream => acted_question(rt, alloc, site, request, gate),
        Handler::Update => {
            let outcome = run_updated(alloc, site, request)?;
            Ok(Question::Nothing(outcome))
        }
    }
}

// The answer to a request whose collection isn't there.
fn unknown(alloc: Global) -> Result<Outcome, Memory>
    ensures { IfOk result (λ outcome. outcome ≡ refusal 404) }
{
    let msg = Text::of(alloc, refusal_text(404))?;
    Ok(Outcome::Refused { code: 404, msg })
}

/// What a request does at the site, and what it asks of the board then.
pub(crate) fn request_question<T: Turns, R: Threads + Sync, G: Gate>(
    rt: &R,
    alloc: Global,
    site: &mut T,
    request: &Request,
    gate: &G,
) -> Result<Question, Memory>
    ensures course { CarriedTo (T.writer site.old) (T.writer site.new) (λ told.
        request_course (T.layout site.old) told request.now) result }
    ensures asks { IfOk result (Asks (ask_of (T.layout site.old).names request.now)) }
    ensures stays { Stays T.layout T.home T.free site.old site.new }
{
    if shards_of(site.names(), request.collection.as_str()) == 0 {
        let outcome = unknown(alloc)?;
        return Ok(Question::Nothing(outcome));
    }
    handled_question(rt, alloc, site, request, gate)
}

/// What a request does at the site or asks of the board, and is answered (Solr Reference Guide,
/// "Streaming Expressions", the `/stream` handler, and "Indexing with Update Handlers"; actions and
/// texts of refusals own). The board is asked last, at the time `now`, in milliseconds: where
/// memory is wanting it is as it was.
pub fn run_request<T: Turns, D: Daemons, R: Threads + Sync, G: Gate>(
    rt: &R,
    alloc: Global,
    site: &mut T,
    board: &mut D,
    request: &Request,
    now: u64,
    gate: &G,
) -> Result<Outcome, Memory>
    ensures course { CarriedWith (T.writer site.old) (T.writer site.new) (λ told.
        request_course (T.layout site.old) told request.now) result }
    ensures asked { IsAsked now (ask_of (T.layout site.old).names request.now)
        (board_state (D.shown board.old) (D.answers board.old))
        (board_state (D.shown board.new) (D.answers board.new)) result }
    ensures stays { Stays T.layout T.home T.free site.old site.new }
{
    let question = request_question(rt, alloc, site, request, gate)?;
    ask(alloc, board, question, now)
}
