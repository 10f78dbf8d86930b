// Everything that can be asked of a disk, and demand 3 of every part of it: definitions and laws; no code.
#![tactic(auto)]
