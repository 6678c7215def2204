// Endless lists of step calls (01, "Monitors"). There is no code here: specs/ says what such a list is and what demand 3 asks of it, over
// the definitions that the step service's contract cites, and proofs/ has demand 3's first sentence and a list that it speaks of.

#![tactic(auto)]
