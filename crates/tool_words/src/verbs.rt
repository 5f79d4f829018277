//! The first word.
ghost use Rattle.std.specs.Prelude.{◌≡◌, ◌≤◌};
ghost use Rattle.tool_words.specs.Asked.{count_of, verb_of};

/// What the first word says.
#[derive(Clone, Copy, Debug, PartialEq, Eq)]
pub enum Verb {
    Play,
    Trial,
    Replay,
    Drill,
    Relay,
    Rounds,
    Tally,
    Throttle,
}

/// The verb that a word is.
#[tactic(auto, unfolding(crate::specs::Asked::verb_of))]
pub fn verb_of(word: &str) -> Option<Verb>
    ensures { result ≡ verb_of word.now }
{
    match word {
        "play" => Some(Verb::Play),
        "trial" => Some(Verb::Trial),
        "replay" => Some(Verb::Replay),
        "drill" => Some(Verb::Drill),
        "relay" => Some(Verb::Relay),
        "rounds" => Some(Verb::Rounds),
        "tally" => Some(Verb::Tally),
        "throttle" => Some(Verb::Throttle),
        _ => None,
    }
}

/// How many words stand behind a verb.
pub fn count_of(verb: Verb) -> usize
    ensures exact { result ≡ count_of verb }
    ensures few { result ≤ 4 }
{
    match verb {
        Verb::Play | Verb::Trial | Verb::Rounds => 0,
        Verb::Replay => 1,
        Verb::Drill => 3,
        Verb::Relay | Verb::Tally => 2,
        Verb::Throttle => 4,
    }
}
