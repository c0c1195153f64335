//! What is said of the words' factorizations and runs (Statements, SeparatedStatements, PairStatements, RunStatements),
//! and that it holds. The definitions and most laws are in specs/, the others in proofs/.
#![tactic(auto)]
