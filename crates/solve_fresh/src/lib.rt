// A factor just made is never refused by a solve with the system that it was made of: claims and laws alone.
#![tactic(auto)]
