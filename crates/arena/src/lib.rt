// What games mean and how long they can be held: definitions and laws only.
#![tactic(auto)]
