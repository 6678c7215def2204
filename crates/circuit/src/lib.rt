// Circuits, and what they mean. There is no code here: specs/ has the definitions, in the terms of the AIGER format report of 2007, and
// proofs/ that the values of a circuit's literals are there and are the only ones.

#![tactic(auto)]
