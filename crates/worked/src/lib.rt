// Definitions and theorems alone: document 01's lines checked by hand, and the idle programs shut out.
#![tactic(auto)]
