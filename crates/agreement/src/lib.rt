// No functions: the theorem that from a landmark on two charts get the same answers, whatever stands before their end.
#![tactic(auto)]
