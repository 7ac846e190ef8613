//! What the promises of the crates below add up to. There is no code here: each statement stands in specs/, to be read alone, and is
//! proved in proofs/ under its name in small letters, `recovery_is_exact` for `RecoveryIsExact`. The modules named samples show by small
//! files that what a theorem asks for is there.
#![tactic(auto)]
