// Erasing many files at once: definitions and laws; no code.
#![tactic(auto)]
