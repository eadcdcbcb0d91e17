// What an accepted call leaves is well formed again, and the sizes that follow. There is no function here: the theorems stand in specs/.
#![tactic(auto)]
