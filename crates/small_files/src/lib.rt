// Every small file by its serial number: definitions and theorems. There is no code here.
#![tactic(auto)]
