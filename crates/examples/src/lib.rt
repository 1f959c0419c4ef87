// The worked examples of the rules, in one list, checked against the definitions that the contracts use.
#![tactic(auto)]

ghost use Rattle.examples.specs.Examples.{Examples};

// Every worked example holds of the definitions.
pub fn examples_hold()
    ensures { Examples }
{}
