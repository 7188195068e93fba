// The listing of a score, and that a run of it plays the score.

#![tactic(auto)]
