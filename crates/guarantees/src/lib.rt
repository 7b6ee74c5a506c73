// What is guaranteed of whole runs, told from the public contracts alone: statements (specs/) and their proofs (proofs/). There is no code here.
#![tactic(auto)]
