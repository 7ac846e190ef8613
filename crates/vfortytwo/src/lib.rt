//! CRC-32 is what ITU-T Recommendation V.42 says it is. There is no code here: each statement stands in specs/, to be read alone, and is
//! proved in proofs/ under its name in small letters, `crc_is_v42` for `CrcIsV42`.
#![tactic(auto)]
