//! The words behind the program's name.
ghost use Rattle.std.specs.Prelude.{◌≡◌, ◌≤◌, IfOk, IfSome};
ghost use Rattle.picture_run.specs.Asked.{InRange, asked, drawing_by, lines_by, trace_path, workers_in, workers_of};

use std::alloc::{AllocError, Global};
use text_lines::number;
use trace_text::Name;

/// What is drawn of a replay.
#[derive(Debug, Drop)]
pub enum Picture {
    /// a line for each tenant
    Lines { workers: u32 },
    /// the drawing of one tenant
    Drawing { workers: u32, tenant: Name },
}

impl Picture {
    /// The number of workers whose trace is drawn.
    pub fn workers(&self) -> u32
        ensures { result ≡ workers_of self.now }
    {
        match self {
            Picture::Lines { workers } => *workers,
            Picture::Drawing { workers, .. } => *workers,
        }
    }
}

/// The picture that words ask for, if they do: `line TRACE WORKERS` or `svg TRACE WORKERS TENANT`.
/// The path of the trace may be any word here.
#[tactic(auto, unfolding(crate::specs::Asked::asked))]
pub fn read_words(alloc: Global, words: &[String]) -> Result<Option<Picture>, AllocError>
    ensures exact { IfOk result (λ picture. picture ≡ asked words.now) }
    ensures workers { IfOk result (λ picture. IfSome picture InRange) }
{
    match words {
        [verb, _trace, workers] => Ok(lines_by(verb, workers)),
        [verb, _trace, workers, tenant] => drawing_by(alloc, verb, workers, tenant),
        _ => Ok(None),
    }
}

/// The path of the trace that words speak of, which is empty where there is none.
pub fn trace_path(words: &[String]) -> &str
    ensures { result.now ≡ trace_path words.now }
{
    match words {
        [_verb, path, ..] => path,
        _ => "",
    }
}

// The lines of all tenants, where these words ask for them.
#[tactic(auto, unfolding(crate::specs::Asked::lines_by))]
fn lines_by(verb: &str, workers: &str) -> Option<Picture>
    ensures exact { result ≡ lines_by verb.now workers.now }
    ensures workers { IfSome result InRange }
{
    match verb {
        "line" => {
            let workers = workers_in(workers)?;
            Some(Picture::Lines { workers })
        }
        _ => None,
    }
}

// The drawing of a tenant, where these words ask for it.
#[tactic(auto, unfolding(crate::specs::Asked::drawing_by))]
fn drawing_by(
    alloc: Global,
    verb: &str,
    workers: &str,
    tenant: &str,
) -> Result<Option<Picture>, AllocError>
    ensures exact { IfOk result (λ picture. picture ≡ drawing_by verb.now workers.now tenant.now) }
    ensures workers { IfOk result (λ picture. IfSome picture InRange) }
{
    match verb {
        "svg" => match workers_in(workers) {
            Some(workers) => {
                let items = Vec::from_slice(alloc, tenant.as_bytes())?;
                let tenant = Name { items };
                Ok(Some(Picture::Drawing { workers, tenant }))
            }
            None => Ok(None),
        },
        _ => Ok(None),
    }
}

// The number of workers that a word is.
fn workers_in(word: &str) -> Option<u32>
    ensures exact { result ≡ workers_in word.now }
    ensures range { IfSome result (λ n. (1 ≤ n) × (n ≤ 64)) }
{
    match number(word.as_bytes()) {
        Some(n) if 1 <= n && n <= 64 => Some(n as u32),
        _ => None,
    }
}
