// The stand-in and the reply reader meet: theorems over their contracts, and no function.

#![tactic(auto)]
