// What the calls of a canvas session leave one after the other (specs/Sequence), and its laws.
#![tactic(auto)]
