// What each change does, as steps: definitions and laws, among them what a stop in the middle leaves; no code.
#![tactic(auto)]
