//! What a regulator lets through, whatever comes to it: the laws of the schedulers and of their groups (IEEE Std
//! 802.1Qcr), over the definitions that the code of `ats_bucket` and `ats_group` is proved to follow. Beside them, what
//! it is for frames to conform to a token bucket, said by windows of time.
#![tactic(auto)]

pub mod laws;
