// What a file says, as definitions (specs/) with what is proved of them (proofs/). No code stands here.
#![tactic(auto)]
