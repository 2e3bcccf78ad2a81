// Codes as four bytes each, low byte first: definitions and laws alone.
#![tactic(auto)]
