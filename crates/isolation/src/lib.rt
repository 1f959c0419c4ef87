// The isolation theorem, for every type of element.
#![tactic(auto)]

ghost use Rattle.isolation.specs.Isolation.{Isolation, IsolatedAnswers};
ghost use Rattle.isolation.specs.OneStep.{Unwinding};
ghost use Rattle.isolation.specs.Rules.{RulesKept, ResultsWritten};

// Every making with an exclusive sheet isolates its parts: over whole histories, and answer by answer.
pub fn isolation_holds<E>()
    ensures runs { Isolation E }
    ensures answers { IsolatedAnswers E }
{}

// One request on two sets of boxes that are alike for a closed set of parts.
pub fn one_step_holds<E>()
    ensures { Unwinding E }
{}

// Rules that the machine and the boxes keep, and how results are written.
pub fn rules_hold<E>()
    ensures rules { RulesKept E }
    ensures results { ResultsWritten E }
{}
