//! Command lines.

ghost use Rattle.std.specs.Prelude.{◌≡◌, Contains, IfSome, length};
ghost use Rattle.std.specs.List.{AllByRecursion};
ghost use Rattle.std.specs.Option.{option_map};
ghost use Rattle.pv_io.specs.Files.{byte_lists, fetch_names};
ghost use Rattle.pv_cli.specs.CommandLine.{command_line_of, plain_command_line, files_named};
ghost use Rattle.pv_cli.specs.CommandLine.{IsDrillSize, IsSized, drill_size};

use crate::checker::{Checker, checker_of};
use crate::verb::{Verb, verb_of};
use pv_chars::is_name;
use pv_commands::standoff::Annotation;
use pv_opening::Named;
use pv_script::written_number;

/// A well-formed command line, by its form.
#[derive(Clone, Copy)]
pub enum CommandLine<'a> {
    /// `dtd DTD`.
    OnDtd(&'a str),
    /// A verb with DTD ROOT DOC.
    OnDocument(Verb, Named<'a>),
    /// A checker with DTD ROOT DOC and the name of a certificate.
    OnCertificate(Checker, Named<'a>, &'a str),
    /// `standoff DTD ROOT TEXT RANGES`.
    OnRanges(Annotation<'a>),
    /// `drill N`.
    Drill(u32),
}

// The size of a drill that a word is.
fn drill_size(word: &[u8]) -> Option<u32>
    ensures size { result ≡ drill_size word.now }
    ensures sized { IfSome result IsDrillSize }
{
    let size = match written_number(word) {
        Some(size) => size,
        None => return None,
    };
    if 1 <= size && size <= 20_000 {
        Some(size)
    } else {
        None
    }
}

// The command line that two words are.
fn line_of_two(words: &[String]) -> Option<CommandLine<'_>>
    requires { length words.now ≡ 2 }
    ensures line { option_map plain_command_line result ≡ command_line_of (byte_lists words.now) }
    ensures named { AllByRecursion (Contains (fetch_names words.now))
        (files_named (option_map plain_command_line result)) }
    ensures sized { IfSome result IsSized }
{
    let [command, word] = words else {
        unreachable!()
    };
    if command.as_str() == "dtd" {
        return Some(CommandLine::OnDtd(word.as_str()));
    }
    if command.as_str() == "drill" {
        return match drill_size(word.as_bytes()) {
            Some(size) => Some(CommandLine::Drill(size)),
            None => None,
        };
    }
    None
}

// The command line that four words are.
fn line_of_four(words: &[String]) -> Option<CommandLine<'_>>
    requires { length words.now ≡ 4 }
    ensures line { option_map plain_command_line result ≡ command_line_of (byte_lists words.now) }
    ensures named { AllByRecursion (Contains (fetch_names words.now))
        (files_named (option_map plain_command_line result)) }
    ensures sized { IfSome result IsSized }
{
    let [command, dtd, root, doc] = words else {
        unreachable!()
    };
    if !is_name(root.as_bytes()) {
        return None;
    }
    let Some(verb) = verb_of(command.as_str()) else {
        return None;
    };
    let named = Named {
        dtd: dtd.as_str(),
        root: root.as_bytes(),
        doc: doc.as_str(),
    };
    Some(CommandLine::OnDocument(verb, named))
}

// The command line that five words are.
fn line_of_five(words: &[String]) -> Option<CommandLine<'_>>
    requires { length words.now ≡ 5 }
    ensures line { option_map plain_command_line result ≡ command_line_of (byte_lists words.now) }
    ensures named { AllByRecursion (Contains (fetch_names words.now))
        (files_named (option_map plain_command_line result)) }
    ensures sized { IfSome result IsSized }
{
    let [command, dtd, root, doc, file] = words else {
        unreachable!()
    };
    if !is_name(root.as_bytes()) {
        return None;
    }
    if command.as_str() == "standoff" {
        return Some(CommandLine::OnRanges(Annotation {
            dtd: dtd.as_str(),
            root: root.as_bytes(),
            text: doc.as_str(),
            ranges: file.as_str(),
        }));
    }
    let Some(checker) = checker_of(command.as_str()) else {
        return None;
    };
    let named = Named {
        dtd: dtd.as_str(),
        root: root.as_bytes(),
        doc: doc.as_str(),
    };
    Some(CommandLine::OnCertificate(checker, named, file.as_str()))
}

/// The command line that the words are; none where they are none.
pub fn command_line_of(words: &[String]) -> Option<CommandLine<'_>>
    ensures line { option_map plain_command_line result ≡ command_line_of (byte_lists words.now) }
    ensures named { AllByRecursion (Contains (fetch_names words.now))
        (files_named (option_map plain_command_line result)) }
    ensures sized { IfSome result IsSized }
{
    match words.len() {
        2 => line_of_two(words),
        4 => line_of_four(words),
        5 => line_of_five(words),
        _ => None,
    }
}
