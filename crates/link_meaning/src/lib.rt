// No function: what the link's events mean, and that its record stays sound.
#![tactic(auto)]
