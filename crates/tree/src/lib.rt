// A tree of links: definitions and laws alone, for any value at a link and any sum of wrenches.
#![tactic(auto)]
