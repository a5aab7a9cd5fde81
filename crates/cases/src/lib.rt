// Document 01's starred cases: one table (specs/Table) and one proved statement (proofs/Holds).
#![tactic(auto)]
