// What a store promises, as theorems about all calls that obey the rules: specs/ states them, proofs/ shows them. There is no
// code here.

#![tactic(auto)]
