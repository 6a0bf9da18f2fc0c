// How evenly a store wears its flash while power does not fail, and how long the flash lasts, as theorems about all calls that obey
// the rules: specs/ states them, proofs/ shows them. There is no code here.

#![tactic(auto)]
