// Unification over trees: definitions (specs/) and what is proved of them (proofs/). No code stands here.
#![tactic(auto)]
