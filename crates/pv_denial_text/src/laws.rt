//! The laws of denials' texts, each the contract of a function that does nothing.

ghost use Rattle.pv_words.specs.Numbers.{AreNumbers};
ghost use Rattle.pv_denial_text.specs.Laws.{OneMeaning};

/// Bytes mean one thing at most: a denial, a fault, or that a limit is passed.
pub fn one_meaning_law()
    ensures { OneMeaning }
{}

/// Numbers of the program are small enough for a line.
pub fn numbers_law(_numbers: &[u32])
    ensures { AreNumbers _numbers.now }
{}
