// The words after the program's name.
ghost use Rattle.std.specs.Prelude.{◌≡◌, ◌↔◌, ◌⊎◌, IfErr};

use crate::ending::Ending;
use std::env;
use std::env::Env;
use std::io::ErrorKind;
use tuple_values::{Text, Words};

// How the run ends where the words can't be read: a word, or the program's name, is no text, or
// memory is wanting.
fn unread(error: ErrorKind) -> Ending
    ensures memory { (result ≡ Ending.OutOfMemory) ↔ (error ≡ ErrorKind.OutOfMemory) }
    ensures words { (result ≡ Ending.OutOfMemory) ⊎ (result ≡ Ending.WordsRefused) }
{
    match error {
        ErrorKind::OutOfMemory => Ending::OutOfMemory,
        _ => Ending::WordsRefused,
    }
}

/// The words after the program's name, or how the run ends where they can't be read.
pub fn read_words<R: Env + AllocGlobal>(rt: &R) -> Result<Words, Ending>
    ensures { IfErr result
        (λ ending. (ending ≡ Ending.OutOfMemory) ⊎ (ending ≡ Ending.WordsRefused)) }
{
    let mut words = Words::new(rt.alloc());
    let all = match env::args(rt) {
        Ok(all) => all,
        Err(error) => return Err(unread(error.kind())),
    };
    for word in all.skip(1) {
        if words.push(Text::from_string(word)).is_err() {
            return Err(Ending::OutOfMemory);
        }
    }
    Ok(words)
}
