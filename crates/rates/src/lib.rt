// What the report on a month's files says: the words of W-201 of document 02, and what follows from them. There is no code here.
#![tactic(auto)]
