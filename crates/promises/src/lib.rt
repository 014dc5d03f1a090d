// What each public call promises, as definitions (specs/), and what follows from the promises alone (proofs/). No code stands here, so no promise can lean on any.
#![tactic(auto)]
