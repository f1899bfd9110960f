// The three demands of the code: claims over the contracts in specs/, their proofs in proofs/. No code stands here.
#![tactic(auto)]
