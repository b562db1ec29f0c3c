//! Worked rows of the program, through the top call: DTDs, documents, `valid`, words and faults of
//! the outside; `check`; sessions, packs and completions; offers; ranges, reasons and denials; each
//! command on devices that fail. Beside them, calls of the crates of documents and of offers.
#![tactic(auto)]

#[cfg(test)]
mod certificates;
#[cfg(test)]
mod check;
#[cfg(test)]
mod grammars;
#[cfg(test)]
mod offers;
#[cfg(test)]
mod runs;
#[cfg(test)]
mod session;
#[cfg(test)]
mod texts;
