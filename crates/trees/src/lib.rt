// Directories inside directories: which rows of 26 to 28 hold, and what lies beneath a directory; definitions and laws, no code.
#![tactic(auto)]
