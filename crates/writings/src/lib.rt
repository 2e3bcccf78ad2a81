// What the writer gives, and what follows of it: definitions and theorems alone.
#![tactic(auto)]
