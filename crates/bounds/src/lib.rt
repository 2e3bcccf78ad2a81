// Definitions and theorems alone: where the items of a list of bytes start, and which of them covers a byte.
#![tactic(auto)]
