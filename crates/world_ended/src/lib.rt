// Which attempts can end as committed: those of which their client has asked it.
#![tactic(auto)]
