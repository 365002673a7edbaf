// Document 01's worked examples: the list of theorems is specs/CuppingTable.antt.
#![tactic(auto)]
