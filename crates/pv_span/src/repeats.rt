//! Tokens of a word that stand there again, further after: the values over spans of the same
//! tokens are the same.

ghost use Rattle.std.specs.Prelude.{◌≡◌, ◌≤◌, ◌<◌, ◌+◌, IsTrue, length};
ghost use Rattle.pv_span.specs.Repeats.{AreSameFrom};

use crate::charts::Chart;
use crate::values::value_at;
use pv_chars::NoMemory;
use pv_model::Token;
use std::alloc::Global;

/// So many tokens from the place `from` on are those from the place `again` on, which is the place
/// after `from` where the most are. The runs count for each place after `from` how many are.
#[derive(Debug, Drop)]
pub struct Repeats {
    pub from: u32,
    pub again: u32,
    pub count: u32,
    runs: Vec<u32>,
}

fn is_same_token(token: Token, other: Token) -> bool
    ensures { IsTrue result → token ≡ other }
{
    token == other
}

/// How many tokens from a place on are those from another one on, of so many.
fn count_same(word: &[Token], from: usize, again: usize, most: usize) -> usize
    requires from { from + most ≤ length word.now }
    requires again { again + most ≤ length word.now }
    ensures few { result ≤ most }
    ensures same { AreSameFrom word.now from again result }
{
    for count in 0..most {
        if !is_same_token(word[from + count], word[again + count]) {
            return count;
        }
    }
    most
}

/// How many tokens from a place on are those from `from` on, by the run of the place after it.
fn run_at(word: &[Token], from: usize, place: usize, runs: &[u32]) -> u32
    requires from { from < length word.now }
    requires place { place < length word.now }
{
    if place + 1 >= runs.len() || !is_same_token(word[from], word[place]) {
        return 0;
    }
    u32::saturating_add(runs[place + 1], 1)
}

/// Counts the runs for a place, where those for the place after it were counted.
fn count_runs(word: &[Token], from: usize, runs: &mut [u32])
    requires { from < length word.now }
{
    for place in from + 1..word.len() {
        if place < runs.len() {
            let run = run_at(word, from, place, runs);
            runs[place] = run;
        }
    }
}

/// The place of the longest run, from a place on.
fn longest(runs: &[u32], first: usize) -> usize
    ensures { first ≤ result }
{
    let mut best = first;
    let mut most = 0;
    for place in first..runs.len() {
        if runs[place] > most {
            most = runs[place];
            best = place;
        }
    }
    best
}

impl Repeats {
    ghost use Rattle.std.specs.Prelude.{◌≡◌, ◌<◌, ◌^◌, IfOk, IsTrue, length};
    ghost use Rattle.pv_span.specs.Repeats.{AreSameTokens, StandAgain};

    /// Nothing is known of a word of so many tokens.
    pub fn new(alloc: Global, tokens: u32) -> Result<Repeats, NoMemory>
        ensures { IfOk result (λ repeats. repeats.count ≡ 0) }
    {
        Ok(Repeats {
            from: tokens,
            again: tokens,
            count: 0,
            runs: vec![in alloc; 0u32; tokens as usize + 1]?,
        })
    }

    /// Goes on to a place before the last one, where it isn't there.
    pub fn go_to(&mut self, word: &[Token], from: u32)
        requires short { length word.now < 2 ^ 13 }
        requires repeats { AreSameTokens word.now self.old }
        ensures { AreSameTokens word.now self.new }
    {
        let first = from as usize;
        if from == self.from || first >= word.len() {
            return;
        }
        count_runs(word, first, &mut self.runs);
        let again = longest(&self.runs, first + 1).min(word.len());
        let most = (value_at(&self.runs, again) as usize).min(word.len() - again);
        let count = count_same(word, first, again, most);
        self.from = from;
        self.again = again as u32;
        self.count = count as u32;
    }

    /// Whether the tokens of the span at hand stand again in a span that is done.
    pub fn covers(&self, chart: &Chart) -> bool
        ensures { IsTrue result → StandAgain self.now chart.now }
    {
        if self.from != chart.from || chart.to - chart.from > self.count {
            return false;
        }
        chart.is_done_from(self.again)
    }
}
