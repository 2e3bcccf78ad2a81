// Definitions and theorems alone: the index of a log, what is found by it, and what it is after an append.
#![tactic(auto)]
