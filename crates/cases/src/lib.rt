// The cases that 01 marks P, as rows under one theorem. There is no code here: specs/ has the rows and what each says, and proofs/
// the theorem.

#![tactic(auto)]
