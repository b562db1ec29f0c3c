//! Requests: what the words after the program's name ask for.

ghost use Rattle.std.specs.Prelude.{◌≡◌, Contains, length};
ghost use Rattle.std.specs.List.{AllByRecursion};
ghost use Rattle.std.specs.Option.{option_map};
ghost use Rattle.pv_io.specs.Files.{byte_lists, fetch_names};
ghost use Rattle.pv_many.specs.Requests.{dtd_asked, request_told, asked_question, asked_request};

use pv_chars::is_name;

/// What is asked of each document.
#[derive(Clone, Copy, Debug, PartialEq, Eq)]
pub enum Question {
    /// Whether it is valid.
    Valid,
    /// Whether inserting elements can make it valid.
    Check,
    /// How many elements are missing in it.
    Need,
}

/// A question of many documents, with their root's name and the name of their DTD.
#[derive(Clone, Copy)]
pub struct Request<'a> {
    pub question: Question,
    pub dtd: &'a str,
    pub root: &'a [u8],
}

/// The question that a word is.
pub fn question_of(word: &str) -> Option<Question>
    ensures { result ≡ asked_question word.now }
{
    if word == "valid" {
        Some(Question::Valid)
    } else if word == "check" {
        Some(Question::Check)
    } else if word == "need" {
        Some(Question::Need)
    } else {
        None
    }
}

// The request that three words are.
fn request_of_three(words: &[String]) -> Option<Request<'_>>
    requires { length words.now ≡ 3 }
    ensures request { option_map request_told result ≡ asked_request (byte_lists words.now) }
    ensures named { AllByRecursion (Contains (fetch_names words.now))
        (dtd_asked (option_map request_told result)) }
{
    let [question, dtd, root] = words else {
        unreachable!()
    };
    if !is_name(root.as_bytes()) {
        return None;
    }
    let Some(question) = question_of(question.as_str()) else {
        return None;
    };
    Some(Request {
        question,
        dtd: dtd.as_str(),
        root: root.as_bytes(),
    })
}

/// The request that the words are; none where they are none.
pub fn request_of(words: &[String]) -> Option<Request<'_>>
    ensures request { option_map request_told result ≡ asked_request (byte_lists words.now) }
    ensures named { AllByRecursion (Contains (fetch_names words.now))
        (dtd_asked (option_map request_told result)) }
{
    if words.len() == 3 {
        request_of_three(words)
    } else {
        None
    }
}
