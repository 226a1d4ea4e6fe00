// The code's run of a query beside demand 3's lists of calls: statements and theorems, no code.
#![tactic(auto)]
