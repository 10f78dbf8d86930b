// A whole journey as the app makes it: each call through the C layer, its list as bytes and its record as bytes. Definitions and what is
// proved of them; no code.
#![tactic(auto)]
