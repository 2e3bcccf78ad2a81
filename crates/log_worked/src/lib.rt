// Statements alone: lines of the request C-17, worked by hand.
#![tactic(auto)]
