// What is asked of a run: the words of a command, and what its clients write.
use std::alloc::Global;
use tuple_values::{Bytes, Memory, Numbers, Text, Words};

/// What one client writes: the bytes of its messages, and the places behind each message. The
/// further field stands in each message that comes.
#[derive(Drop)]
pub struct Talk {
    pub bytes: Bytes,
    pub ends: Numbers,
    pub field: Bytes,
}

impl Talk {
    fn empty(alloc: Global) -> Self {
        Talk {
            bytes: Bytes::new(alloc),
            ends: Numbers::new(alloc),
            field: Bytes::new(alloc),
        }
    }

    /// The field of this line stands in the messages that come, and none where the line is empty.
    pub fn set_field(&mut self, alloc: Global, line: &str) -> Result<(), Memory> {
        self.field = Bytes::new(alloc);
        if !line.is_empty() {
            self.field.extend(line.as_bytes())?;
            self.field.extend(b"\r\n")?;
        }
        Ok(())
    }

    /// A message ends where the bytes do now.
    pub fn end_message(&mut self) -> Result<(), Memory> {
        let end = self.bytes.len() as u64;
        self.ends.push(end)
    }

    /// Whether so many first bytes are whole messages.
    pub fn is_between(&self, count: u64) -> bool {
        count == 0 || self.ends.as_slice().contains(&count)
    }
}

/// The words of a command, and what its clients write; a script has one.
#[derive(Drop)]
pub struct Session {
    pub words: Words,
    pub talks: Vec<Talk>,
}

impl Session {
    /// No words, and no client.
    pub fn empty(alloc: Global) -> Self {
        Session {
            words: Words::new(alloc),
            talks: Vec::new(alloc),
        }
    }

    /// One more client.
    pub fn add_talk(&mut self, alloc: Global) -> Result<(), Memory> {
        self.talks.push(Talk::empty(alloc))?;
        Ok(())
    }
}

// The words of a line.
fn words_of(alloc: Global, line: &str) -> Result<Words, Memory> {
    let mut words = Words::new(alloc);
    for word in line.split_whitespace() {
        words.push(Text::of(alloc, word)?)?;
    }
    Ok(words)
}

/// A session of these words, with one client.
pub fn begin(alloc: Global, line: &str) -> Result<Session, Memory> {
    let mut session = Session {
        words: words_of(alloc, line)?,
        talks: Vec::new(alloc),
    };
    session.add_talk(alloc)?;
    Ok(session)
}
