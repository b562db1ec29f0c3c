//! Commands on a DTD, a document and a certificate, by their words.

ghost use Rattle.std.specs.Prelude.{◌≡◌};
ghost use Rattle.pv_cli.specs.CommandLine.{checker_of};

/// A command that checks a certificate, whoever made it.
#[derive(Clone, Copy)]
pub enum Checker {
    /// Tells whether a pack shows a least completion.
    Verify,
    /// Tells whether a denial shows that no insertions can make a document valid.
    Deny,
}

/// The checker that a word is.
pub fn checker_of(word: &str) -> Option<Checker>
    ensures { result ≡ checker_of word.now }
{
    match word {
        "verify" => Some(Checker::Verify),
        "deny" => Some(Checker::Deny),
        _ => None,
    }
}
