// The whole stream (document 01; document 02, Q-1): theorems alone. The statement is specs/WholeStream.antt.
#![tactic(auto)]
