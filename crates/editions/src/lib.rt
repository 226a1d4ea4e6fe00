// Card 6: what a file is in the other edition, and what the two conversions keep. Definitions and theorems alone.
#![tactic(auto)]
