// Questions asked of a call, the first no deciding its answer: defined in specs/Questions.antt.
#![tactic(auto)]
