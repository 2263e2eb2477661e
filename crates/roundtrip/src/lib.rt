// Round trips of plan files: no code, only theorems about the definitions of the reader,
// the writer and the lookup.
#![tactic(auto)]
