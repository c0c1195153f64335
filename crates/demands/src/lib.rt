//! The customer's three demands, stated and proved about the calls' promises. The statements are in
//! specs/, the theorems in proofs/; the Lib of each says what stands where.
#![tactic(auto)]
