// What padding is, and that the three readers take it and nothing more. There is no code here: specs/ has the definition, by the bytes
// of a file, and proofs/ what an accepted file's bytes are.

#![tactic(auto)]
