// The reading of a whole text.
ghost use Rattle.std.specs.Prelude.{◌≡◌, ◌↔◌, IfOk, IfErr, OnOk, Some, List};
ghost use Rattle.tuple_values.specs.Document.{ByteList, Doc};
ghost use Rattle.query_syntax.specs.Tree.{ClauseTree};
ghost use Rattle.query_syntax.specs.Agreement.{Agrees};
ghost use Rattle.query_syntax.specs.Grammar.{IsQuery, IsPlace};
ghost use Rattle.query_syntax.specs.Machine.{machine, start};
ghost use Rattle.query_syntax.specs.Reading.{query_of, read_of, Ends, EndsIn};
ghost use Rattle.query_syntax.specs.Meaning.{IsReadable, text_matches};
ghost use Rattle.query_syntax.specs.Matching.{matches};
ghost use Rattle.query_syntax.specs.Fault.{IfPlaced, Answers, Reads};

use crate::reading::Reading;
use crate::{Query, QueryFault};
use std::alloc::Global;
use tuple_values::Memory;

// Runs over a text, up to the place of the first character with which no query goes on.
fn run(reading: &mut Reading, text: &str) -> Result<Option<u64>, Memory>
    requires { machine reading.old ≡ start }
    ensures { IfOk result (λ stuck. EndsIn text.now (machine reading.new) stuck) }
{
    let mut at: u64 = 0;
    for c in text.chars() {
        if !reading.step(c)? {
            return Ok(Some(at));
        }
        at += c.len_utf8() as u64;
    }
    Ok(None)
}

// Reads a text by the machine.
fn read(alloc: Global, text: &str) -> Result<Query, QueryFault>
    ensures computed { Answers (query_of text.now) result }
    ensures place { IfErr result (λ fault. IfPlaced fault (Ends text.now)) }
{
    let mut reading = Reading::new(alloc);
    if let Some(at) = run(&mut reading, text)? {
        return Err(QueryFault::BadQuery { at });
    }
    match reading.finish()? {
        Some(clauses) => Ok(Query { clauses }),
        None => Err(QueryFault::BadQuery {
            at: text.len() as u64,
        }),
    }
}

/// Reads a query (Lucene's classic query syntax): a list of clauses, in which lists may stand in
/// parentheses to 100 levels. A place is the length of the longest front with which some query
/// begins, in bytes: the place of the first byte that no continuation repairs.
pub fn read_query(alloc: Global, text: &str) -> Result<Query, QueryFault>
    // What is read is what the text says, and it says nothing else.
    ensures ok { IfOk result (λ query. IsQuery text.now query.clauses) }
    ensures only { IfOk result (λ query. (other : List ClauseTree)
        → IsQuery text.now other → other ≡ query.clauses) }

    // `BadQuery` comes only where the text is no query, and the place is its own.
    ensures bad_query { IfErr result (λ fault. IfPlaced fault (λ _. ¬ (IsReadable text.now))) }
    ensures place { IfErr result (λ fault. IfPlaced fault (IsPlace text.now)) }

    // All of this as functions of the text.
    ensures readable { OnOk result (IsReadable text.now) }
    ensures meaning { IfOk result (λ query. (doc : Doc)
        → text_matches text.now doc ≡ matches query.clauses doc) }
    ensures computed { Answers (query_of text.now) result }
    ensures reading { Reads (read_of text.now) result }
{
    read(alloc, text)
}

/// The computed readings of a text are what the text says, and the place is that of its fault: for
/// all bytes they agree with the grammar. No memory comes into it.
pub fn readings_agree()
    ensures clauses { (bytes : ByteList) (clauses : List ClauseTree)
        → (query_of bytes ≡ Some clauses) ↔ IsQuery bytes clauses }
    ensures reading { Agrees read_of }
{}
