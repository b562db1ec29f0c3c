//! The laws of live, taking and free sites, each the contract of a function that does nothing.

ghost use Rattle.law_free.specs.Laws.{DerivedAreTaken, FreeDerivesTaken, FreeFurthest};
ghost use Rattle.law_free.specs.Laws.{LiveDerivesNothing, LiveIsProductive, TakesDerivesOne};

/// A site is live exactly where it derives the empty span.
pub fn live_law()
    ensures { LiveDerivesNothing }
{}

/// A site that derives anything is live, and takes each token of what it derives.
pub fn derived_law()
    ensures { DerivedAreTaken }
{}

/// A site takes a token exactly where it derives that one.
pub fn takes_law()
    ensures { TakesDerivesOne }
{}

/// A free site derives exactly the spans of which it takes each token.
pub fn free_law()
    ensures { FreeDerivesTaken }
{}

/// The furthest end of a free site from a place is the first place whose token it doesn't take.
pub fn free_furthest_law()
    ensures { FreeFurthest }
{}

/// A name and its content are live exactly where the name is productive.
pub fn live_productive_law()
    ensures { LiveIsProductive }
{}
