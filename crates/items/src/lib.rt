// Which record of a tray or entry of a chain a refusal names: definitions and laws alone.
#![tactic(auto)]
