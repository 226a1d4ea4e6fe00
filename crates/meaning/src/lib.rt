// What check answers of a file (crate format), as definitions (specs/) with what is proved of them (proofs/). No code stands here.
#![tactic(auto)]
