// Demand 3 has no code of its own: its statement is specs/Demand3.antt, about the definitions that event_ring's contracts cite.
#![tactic(auto)]
