//! Worked examples, proved of the rules of placement and of the plain book.
#![tactic(auto)]

ghost use Rattle.shown.specs.Examples.{Examples};
ghost use Rattle.shown.specs.Further.{Further};

/// The ten examples hold.
pub fn examples_hold()
    ensures { Examples }
{}

/// The further examples hold.
pub fn further_examples_hold()
    ensures { Further }
{}
