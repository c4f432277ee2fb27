// Examples worked by hand, proved of the definitions.

#![tactic(auto)]

ghost use Rattle.examples.specs.Examples.{WorkedExamples};

// The sample networks have the cores, the trees and the strengths that a reader finds by hand.
pub fn worked_examples()
    ensures { WorkedExamples }
{}
