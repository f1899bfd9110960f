// The promises of the store: claims about `meaning` in specs/, their proofs in proofs/. No code stands here.
#![tactic(auto)]
