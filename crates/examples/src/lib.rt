// Evidence for the definitions of crate meaning that takes long to compute. No code stands here.
#![tactic(auto)]
