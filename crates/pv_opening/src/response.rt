//! What a command writes.

ghost use Rattle.std.specs.Prelude.{◌≡◌, ◌++◌, IfOk, OnOk, decimal, false};
ghost use Rattle.pv_words.specs.Paths.{path_text};
ghost use Rattle.pv_opening.specs.Status.{needs_cause};

use crate::status::Status;
use pv_words::{push_number, push_numbers, push_path};
use std::alloc::{AllocError, Global};

/// What a command writes: a status, and bytes.
#[derive(Drop)]
pub struct Response {
    pub status: Status,
    pub output: Vec<u8>,
    pub ghost defined: { needs_cause status ≡ false },
}

impl Response {
    ghost use Rattle.pv_words.specs.Numbers.{numbers_text};
    ghost use Rattle.pv_opening.specs.Response.{plain_response, with_line};

    // The line of this text, which is ended here.
    fn of_text(status: Status, mut text: Vec<u8>) -> Result<Response, AllocError>
        requires { needs_cause status ≡ false }
        ensures { IfOk result (λ r. plain_response r ≡ with_line status text.items) }
    {
        text.extend_from_slice(b"\n")?;
        Ok(Response {
            status,
            output: text,
        })
    }

    /// The line of this text.
    pub fn with_line(alloc: Global, status: Status, text: &[u8]) -> Result<Response, AllocError>
        requires { needs_cause status ≡ false }
        ensures { IfOk result (λ r. plain_response r ≡ with_line status text.now) }
    {
        Response::of_text(status, Vec::from_slice(alloc, text)?)
    }

    /// The line of this text and a number.
    pub fn with_number(
        alloc: Global,
        status: Status,
        text: &[u8],
        number: u64,
    ) -> Result<Response, AllocError>
        requires { needs_cause status ≡ false }
        ensures { IfOk result (λ r. plain_response r
            ≡ with_line status (text.now ++ decimal number)) }
    {
        let mut line = Vec::from_slice(alloc, text)?;
        push_number(&mut line, number)?;
        Response::of_text(status, line)
    }

    /// The line of this text and some numbers.
    pub fn with_numbers(
        alloc: Global,
        status: Status,
        text: &[u8],
        numbers: &[u32],
    ) -> Result<Response, AllocError>
        requires { needs_cause status ≡ false }
        ensures { IfOk result (λ r. plain_response r
            ≡ with_line status (text.now ++ numbers_text numbers.now)) }
    {
        let mut line = Vec::from_slice(alloc, text)?;
        push_numbers(&mut line, numbers)?;
        Response::of_text(status, line)
    }

    /// The line of these two texts.
    pub fn with_text(
        alloc: Global,
        status: Status,
        text: &[u8],
        more: &[u8],
    ) -> Result<Response, AllocError>
        requires { needs_cause status ≡ false }
        ensures { IfOk result (λ r. plain_response r ≡ with_line status (text.now ++ more.now)) }
    {
        let mut line = Vec::from_slice(alloc, text)?;
        line.extend_from_slice(more)?;
        Response::of_text(status, line)
    }

    /// The line of this text and a path.
    pub fn with_path(
        alloc: Global,
        status: Status,
        text: &[u8],
        places: &[u32],
    ) -> Result<Response, AllocError>
        requires { needs_cause status ≡ false }
        ensures { IfOk result (λ r. plain_response r
            ≡ with_line status (text.now ++ path_text places.now)) }
    {
        let mut line = Vec::from_slice(alloc, text)?;
        push_path(&mut line, places)?;
        Response::of_text(status, line)
    }
}
