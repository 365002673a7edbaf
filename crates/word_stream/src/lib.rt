// The whole stream (document 01) through the exported calls on words: a theorem alone. The statement is specs/OnWords.antt.
#![tactic(auto)]
