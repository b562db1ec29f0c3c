//! Requests: what the words after the program's name ask for.

ghost use Rattle.std.specs.Prelude.{◌≡◌, Contains, length};
ghost use Rattle.std.specs.List.{AllByRecursion};
ghost use Rattle.std.specs.Option.{option_map};
ghost use Rattle.pv_io.specs.Files.{byte_lists, fetch_names};
ghost use Rattle.pvlong.specs.Requests.{files_asked, plain_request, question_of, request_of};

use pv_chars::is_name;
use pv_opening::Named;

/// What is asked of a document.
#[derive(Clone, Copy, Debug, PartialEq, Eq)]
pub enum Question {
    /// Whether inserting elements can make it valid.
    Check,
    /// How many elements are missing in it.
    Need,
    /// A document that is this one with elements inserted, and valid.
    Complete,
}

/// A question of a document, with its root's name and the names of its files.
#[derive(Clone, Copy)]
pub struct Request<'a> {
    pub question: Question,
    pub named: Named<'a>,
}

/// The question that a word is.
pub fn question_of(word: &str) -> Option<Question>
    ensures { result ≡ question_of word.now }
{
    if word == "check" {
        Some(Question::Check)
    } else if word == "need" {
        Some(Question::Need)
    } else if word == "complete" {
        Some(Question::Complete)
    } else {
        None
    }
}

// The request that four words are.
fn request_of_four(words: &[String]) -> Option<Request<'_>>
    requires { length words.now ≡ 4 }
    ensures request { option_map plain_request result ≡ request_of (byte_lists words.now) }
    ensures named { AllByRecursion (Contains (fetch_names words.now))
        (files_asked (option_map plain_request result)) }
{
    let [question, dtd, root, doc] = words else {
        unreachable!()
    };
    if !is_name(root.as_bytes()) {
        return None;
    }
    let Some(question) = question_of(question.as_str()) else {
        return None;
    };
    let named = Named {
        dtd: dtd.as_str(),
        root: root.as_bytes(),
        doc: doc.as_str(),
    };
    Some(Request { question, named })
}

/// The request that the words are; none where they are none.
pub fn request_of(words: &[String]) -> Option<Request<'_>>
    ensures request { option_map plain_request result ≡ request_of (byte_lists words.now) }
    ensures named { AllByRecursion (Contains (fetch_names words.now))
        (files_asked (option_map plain_request result)) }
{
    if words.len() == 4 {
        request_of_four(words)
    } else {
        None
    }
}
