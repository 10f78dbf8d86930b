// The starred points of document 01: one table under one claim; no code.
#![tactic(auto)]
