// The writer's file under the simulator, cycle by cycle, is the step service. There is no code here: specs/ says what a list of calls
// from latches at 0 is, and proofs/ what comes of it.

#![tactic(auto)]
