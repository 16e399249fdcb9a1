//! Tests of definitions, by computation: what each call answers on small file trees, the zones that files need, what is read of small
//! volumes, and the check's verdicts on them with bytes changed. They stand in `proofs/`, one file for each kind.
#![tactic(auto)]
