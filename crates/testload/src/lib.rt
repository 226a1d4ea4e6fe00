// Card 11: the words of a seed, the rule that turns them into a file, and what holds of every such file. Definitions and theorems alone.
#![tactic(auto)]
