// Steps of an open pool that leave what it keeps, and laws of them.
#![tactic(auto)]
