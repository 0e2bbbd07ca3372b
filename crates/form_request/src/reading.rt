// The messages of a stream that comes in these pieces.
ghost use Rattle.std.specs.Prelude.{◌≡◌, [], IfOk};
ghost use Rattle.std.specs.List.{flat_map};
ghost use Rattle.form_request.specs.Readings.{Reads, HasOneReading, HasReading};

use crate::{Request, Requests, Step100};
use std::alloc::Global;
use tuple_values::{Bytes, Memory, Names, Sequence};

/// A whole message of a stream.
#[derive(Drop)]
pub struct Message {
    /// Whether `100 Continue` is said before the reply.
    pub asks: bool,
    pub request: Request,
}

/// Whole messages, in the order in which they stand.
pub type Messages = Sequence<Message>;

/// What stands behind the last whole message that is read.
#[derive(Drop)]
pub enum After {
    /// A message that is refused with this status.
    Refusal(u16),
    /// So many bytes of an unfinished message, without the empty lines before it, and whether
    /// `100 Continue` is said of it.
    Rest { held: u64, asks: bool },
}

/// What a stream holds.
#[derive(Drop)]
pub struct Reading {
    pub messages: Messages,
    pub after: After,
}

/// A stream that is read to the end of what has come.
#[derive(Drop)]
pub struct Reader {
    requests: Requests,
    messages: Messages,
    told: bool,
}

impl Reader {
    ghost use Rattle.std.specs.Prelude.{◌≡◌, [], IfOk};
    ghost use Rattle.form_request.specs.Readers.{HasRead, HeldReads, IsNearer, Leads, ToldFits};

    fn begin(alloc: Global, names: &Names) -> Reader
        ensures { HasRead names.now [] result }
    {
        let _ = names;
        Reader {
            requests: Requests::begin(alloc),
            messages: Messages::new(alloc),
            told: false,
        }
    }

    // Takes one piece, and reads all that it makes whole.
    fn take_piece(&mut self, names: &Names, piece: &[u8]) -> Result<(), Memory>
        requires { ToldFits self.old.requests.stage self.old.told }
        ensures { IfOk result (λ _. Leads names.now piece.now self.old self.new) }
    {
        self.requests.feed(piece)?;
        let _ = self.drain(names)?;
        Ok(())
    }

    // Reads to the end of what has come, and answers what stands there.
    fn drain(&mut self, names: &Names) -> Result<After, Memory>
        requires { ToldFits self.old.requests.stage self.old.told }
        ensures leads { IfOk result (λ _. Leads names.now [] self.old self.new) }
        ensures ends { IfOk result (HeldReads names.now self.new.told self.new.requests []) }
    {
        loop {
            if let Some(after) = self.step(names)? {
                return Ok(after);
            }
        }
    }

    // Reads one answer, and answers what stands there where it is the last.
    fn step(&mut self, names: &Names) -> Result<Option<After>, Memory>
        requires { ToldFits self.old.requests.stage self.old.told }
        ensures leads { IfOk result (λ _. Leads names.now [] self.old self.new) }
        ensures nearer { IfOk result (IsNearer names.now self.old self.new) }
    {
        match self.requests.next(names)? {
            Step100::Whole(request) => {
                let asks = self.told;
                self.messages.push(Message { asks, request })?;
                self.told = false;
                Ok(None)
            }
            Step100::Continue => {
                self.told = true;
                Ok(None)
            }
            Step100::Refused { status } => Ok(Some(After::Refusal(status))),
            Step100::Wants => Ok(Some(After::Rest {
                held: self.requests.held(),
                asks: self.told,
            })),
        }
    }
}

/// The messages of a stream that comes in these pieces, and what stands behind them. They are those
/// of the bytes, however they are cut.
pub fn read_pieces(alloc: Global, names: &Names, pieces: &[Bytes]) -> Result<Reading, Memory>
    ensures { IfOk result (λ reading.
        Reads names.now (flat_map (λ piece. piece) pieces.now) reading.messages reading.after) }
{
    let mut reader = Reader::begin(alloc, names);
    for piece in pieces {
        reader.take_piece(names, piece.as_slice())?;
    }
    let after = reader.drain(names)?;
    Ok(Reading {
        messages: reader.messages,
        after,
    })
}

/// Bytes hold one list of whole messages, and one thing stands behind them. So what a stream
/// answers doesn't depend on how it is cut into pieces.
pub fn one_reading()
    ensures one { HasOneReading }
    ensures some { HasReading }
{}
