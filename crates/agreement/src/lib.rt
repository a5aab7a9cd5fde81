// What a picture run and the point runs over the same scene have to do with each other (specs/Agreement), and its laws.
#![tactic(auto)]
