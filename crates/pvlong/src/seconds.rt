//! The seconds that the caller gives, by the machine's clock.

use pv_long::Deadline;
use pv_words::written_number;
use std::env;
use std::env::VarError;
use std::rt::Env;
use std::time::{Clock, Duration, Instant};

/// The variable of the environment that holds the seconds.
const SECONDS: &str = "PVLONG_SECONDS";

/// When the search for bounds ends.
#[derive(Clone, Copy)]
enum End {
    Never,
    At(Instant),
    Past,
}

/// How long bounds are sought: so many seconds after the program's start, or without end. A clock
/// that can't be read has come to the end.
#[derive(Drop)]
pub struct Seconds<'a, R: Clock> {
    clock: &'a R,
    end: End,
}

/// Why there are no seconds.
#[derive(Clone, Copy, Debug, PartialEq, Eq)]
pub enum SecondsError {
    /// `PVLONG_SECONDS` isn't a number of at most 4,294,967,295, written without leading zeros.
    NoNumber,
    /// There was too little memory to read it.
    NoMemory,
}

// So many seconds from now on. A clock that doesn't go that far never comes to the end.
fn end_after(clock: &impl Clock, seconds: u32) -> End {
    let Ok(now) = Instant::now(clock) else {
        return End::Past;
    };
    match now.checked_add(Duration::from_secs(u64::from(seconds))) {
        Some(end) => End::At(end),
        None => End::Never,
    }
}

impl<'a, R: Clock + Env + AllocGlobal> Seconds<'a, R> {
    /// No end.
    pub fn without_end(rt: &'a R) -> Seconds<'a, R> {
        Seconds {
            clock: rt,
            end: End::Never,
        }
    }

    /// The seconds of `PVLONG_SECONDS` from now on, or no end where there is no such variable.
    pub fn from_now(rt: &'a R) -> Result<Seconds<'a, R>, SecondsError> {
        let text = match env::var(rt, SECONDS) {
            Ok(text) => text,
            Err(VarError::NotPresent) => return Ok(Seconds::without_end(rt)),
            Err(VarError::NotUnicode) => return Err(SecondsError::NoNumber),
            Err(VarError::OutOfMemory) => return Err(SecondsError::NoMemory),
        };
        match written_number(text.as_bytes()) {
            Some(seconds) => Ok(Seconds {
                clock: rt,
                end: end_after(rt, seconds),
            }),
            None => Err(SecondsError::NoNumber),
        }
    }
}

impl<R: Clock> Deadline for Seconds<'_, R> {
    fn is_past(&self) -> bool {
        match self.end {
            End::Never => false,
            End::Past => true,
            End::At(end) => Instant::now(self.clock).map_or(true, |now| now >= end),
        }
    }
}
