#![tactic(auto)]

// Cases of the rules, beside those of the rule book itself: statements in specs/, computed in proofs/. No code.
