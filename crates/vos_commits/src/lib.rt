// What a commit makes of what a region keeps, whatever its bytes mean.
#![tactic(auto)]
