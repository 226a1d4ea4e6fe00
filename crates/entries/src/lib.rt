// The n-th entry to `unify` of a file's run, and laws of it: definitions and theorems alone.
#![tactic(auto)]
