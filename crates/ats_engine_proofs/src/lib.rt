//! What the steps of `ats_engine_steps` keep: lemmas over plain lists, by which the engine is proved.
#![tactic(auto)]
