// The order of marks, of what the app gets back: the image and the list's bytes; laws, no code.
#![tactic(auto)]
