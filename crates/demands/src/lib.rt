// Theorems over several crates: what the calls together keep of document 01's demands. There is no code here.
#![tactic(auto)]
