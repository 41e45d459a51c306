// That the history statement holds for the changes of a sheet: a theorem, and no function.
#![tactic(auto)]
