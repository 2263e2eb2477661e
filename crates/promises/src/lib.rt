// What is promised, as theorems about the definitions in the contracts of
// the public calls. There is no code here.
#![tactic(auto)]
