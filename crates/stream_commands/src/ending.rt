// How a run ended, with its status and its line.
ghost use Rattle.std.specs.Prelude.{◌≡◌};
ghost use Rattle.stream_commands.specs.Lines.{SaysLine, line_of, refused_line, status_of};

use io_edge::{Put, Sink};
use itoa::Buffer;
use tuple_values::Text;

/// How a run ended.
#[derive(Drop)]
pub enum Ending {
    /// What answers the command is written.
    Done,
    /// The words ask for a text, of help or of the version, and it is written.
    Shown,
    /// Input failed.
    InputFailed,
    /// Output failed.
    OutputFailed,
    /// A door failed, and its server has ended.
    DoorsFailed,
    /// The words are no command.
    WordsRefused,
    /// The words are no command, and this text tells why.
    WordsTold { text: Text },
    /// The expression has a fault, and its reply is written.
    Faulty,
    /// Memory was wanting.
    OutOfMemory,
    /// Input ended inside a message of a script.
    InputCut,
    /// A message of a script was refused with this status.
    MessageRefused { status: u16 },
}

impl Ending {
    /// The status of the process.
    pub fn status(&self) -> u8
        ensures { result ≡ status_of self.now }
    {
        match self {
            Ending::Done | Ending::Shown => 0,
            Ending::InputFailed | Ending::OutputFailed | Ending::DoorsFailed => 1,
            Ending::WordsRefused | Ending::WordsTold { .. } => 2,
            Ending::Faulty => 3,
            Ending::OutOfMemory => 4,
            Ending::InputCut | Ending::MessageRefused { .. } => 5,
        }
    }

    /// Writes the line of the ending, or the text in its place, where it has one. What fails is left.
    pub fn say<E: Sink>(self, errors: &mut E)
        ensures { SaysLine (E.written errors.old) (E.written errors.new)
            (E.faults errors.old) (E.faults errors.new) (line_of self) }
    {
        match self {
            Ending::Done | Ending::Shown | Ending::Faulty => {}
            Ending::InputFailed => say(errors, b"fault: input\n"),
            Ending::OutputFailed => say(errors, b"fault: output\n"),
            Ending::DoorsFailed => say(errors, b"fault: doors\n"),
            Ending::WordsRefused => say(errors, b"words refused\n"),
            Ending::WordsTold { text } => say(errors, text.as_str().as_bytes()),
            Ending::OutOfMemory => say(errors, b"out of memory\n"),
            Ending::InputCut => say(errors, b"input cut\n"),
            Ending::MessageRefused { status } => say_refused(errors, status),
        }
    }
}

// Writes one piece.
fn say<E: Sink>(errors: &mut E, line: &[u8])
    ensures { SaysLine (E.written errors.old) (E.written errors.new)
        (E.faults errors.old) (E.faults errors.new) line.now }
{
    let _ = errors.put(line);
}

// Writes the line of a message that was refused, until a piece fails.
fn say_refused<E: Sink>(errors: &mut E, status: u16)
    ensures { SaysLine (E.written errors.old) (E.written errors.new)
        (E.faults errors.old) (E.faults errors.new) (refused_line status) }
{
    if let Put::Failed = errors.put(b"refused ") {
        return;
    }
    let mut number = Buffer::new();
    if let Put::Failed = errors.put(number.format(status).as_bytes()) {
        return;
    }
    let _ = errors.put(b"\n");
}
