//! What is reached from roots by calls: the one list without repeats that begins with the roots and goes on with the targets of its
//! members' calls, in the order of the first calls.
//!
//! Two crates ask for such lists: the collection of instances, whose members are instances and whose roots are the program's, and the
//! copies of a unit, whose members are items and whose roots are the unit's own. A list is told from others by two facts (`IsFound`)
//! and no code, so that a queue with an index and a walk with marks answer the same definition.
//!
//! What follows from the two facts is proved here once, for members of any kind: there is one such list; it has no repeats; it is
//! closed under calls; it is the least such list; and its members are those to which calls lead from a root. `Reading` is the state of
//! a loop that has read the calls of the first members.
//! Definitions and lemmas alone.
#![tactic(auto)]
