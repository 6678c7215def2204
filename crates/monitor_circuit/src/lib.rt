// The monitors of a normal form as a circuit. There is no code here: specs/ has the circuit, and proofs/ that its run and the steps of
// the step service are one.

#![tactic(auto)]
