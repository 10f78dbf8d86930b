// A whole journey: any sequence of changes, each run to its end or cut, and a plain ledger of slots beside it. Definitions and what is
// proved of them; no code.
#![tactic(auto)]
