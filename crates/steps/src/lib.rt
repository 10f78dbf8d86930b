// A change as steps of one sector each, and what a cut between two leaves: definitions and laws; no code.
#![tactic(auto)]
