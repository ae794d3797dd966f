//! Laws of how names are spelled: none that is read has an LF, so the trace of a run is cut into its
//! lines at each LF.
#![tactic(auto)]

pub mod laws;
