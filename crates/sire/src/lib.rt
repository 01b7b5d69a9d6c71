// Which candidate is the sire of an offspring: the words of W-211 of document 02 and their theorems. There is no code here.
#![tactic(auto)]
