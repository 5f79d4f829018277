//! The words behind the program's name.
ghost use Rattle.std.specs.Prelude.{◌≡◌, ◌≢◌, ◌⊎◌, IfErr};

use picture_run::Ending;
use std::alloc::{AllocGlobal, Global};
use std::env::{self, Env};
use std::io::ErrorKind;

/// The words that a program was started with, or how its run ends without them.
pub fn gather_words<R: Env + AllocGlobal>(rt: &R, alloc: Global) -> Result<Vec<String>, Ending>
    ensures { IfErr result (λ ending. (ending ≡ Ending.Words) ⊎ (ending ≡ Ending.NoMemory)) }
{
    match env::args(rt) {
        Ok(words) => match words.skip(1).collect(alloc) {
            Ok(words) => Ok(words),
            Err(_) => Err(Ending::NoMemory),
        },
        Err(error) => Err(ending_without_words(error.kind())),
    }
}

// How a run ends whose words weren't gathered: memory ran out, or a word is no text.
fn ending_without_words(kind: ErrorKind) -> Ending
    ensures memory { kind ≡ ErrorKind.OutOfMemory → result ≡ Ending.NoMemory }
    ensures no_text { kind ≢ ErrorKind.OutOfMemory → result ≡ Ending.Words }
{
    match kind {
        ErrorKind::OutOfMemory => Ending::NoMemory,
        _ => Ending::Words,
    }
}
