//! The worked examples of the book, all in one statement.
#![tactic(auto)]

ghost use Rattle.worked_examples.specs.All.{AllExamples};

/// The worked examples, each from the definitions that the contracts of the book cite. The call does nothing; its
/// contract is the statement.
pub fn all_hold()
    ensures { AllExamples }
{}
