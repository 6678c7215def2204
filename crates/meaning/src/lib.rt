// What formulas mean. There is no code here: specs/ has the definitions that everything above is proved against, and proofs/ the
// laws on them.

#![tactic(auto)]
