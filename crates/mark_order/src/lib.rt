// The order of marks: marks in either order, marks of two phones merged, and a rename taken back; definitions and laws, no code.
#![tactic(auto)]
