//! Commands on a DTD and a document, by their words.

ghost use Rattle.std.specs.Prelude.{◌≡◌};
ghost use Rattle.pv_cli.specs.CommandLine.{verb_of};

/// A command on a DTD and a document.
#[derive(Clone, Copy)]
pub enum Verb {
    /// Tells whether the document is valid.
    Valid,
    /// Tells whether inserting elements can make the document valid.
    Check,
    /// Answers a script of edits.
    Session,
    /// Prints the pack of a least completion.
    Complete,
    /// Prints why no insertions can make the document valid.
    Why,
}

/// The verb that a word is.
pub fn verb_of(word: &str) -> Option<Verb>
    ensures { result ≡ verb_of word.now }
{
    match word {
        "valid" => Some(Verb::Valid),
        "check" => Some(Verb::Check),
        "session" => Some(Verb::Session),
        "complete" => Some(Verb::Complete),
        "why" => Some(Verb::Why),
        _ => None,
    }
}
