//! What the files mean: the definitions that every contract of this repository cites. There is no
//! code here. `docs/DEFINITIONS.md` says in which order to read the files of `specs/`.
#![tactic(auto)]
