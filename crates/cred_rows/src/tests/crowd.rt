//! Where sixteen lanes meet.
use crate::tests::gate::{At, Stop};
use cred_lanes::Place::BeforeDecision;

/// The places before the decisions of sixteen lanes.
const SIXTEEN: [At; 16] = [
    At(1, 18, BeforeDecision),
    At(2, 20, BeforeDecision),
    At(3, 22, BeforeDecision),
    At(4, 24, BeforeDecision),
    At(5, 26, BeforeDecision),
    At(6, 28, BeforeDecision),
    At(7, 30, BeforeDecision),
    At(8, 32, BeforeDecision),
    At(9, 34, BeforeDecision),
    At(10, 36, BeforeDecision),
    At(11, 38, BeforeDecision),
    At(12, 40, BeforeDecision),
    At(13, 42, BeforeDecision),
    At(14, 44, BeforeDecision),
    At(15, 46, BeforeDecision),
    At(16, 48, BeforeDecision),
];

/// Each of sixteen lanes stands before its decision until all do.
pub(crate) const SIXTEEN_STOPS: [Stop; 16] = [
    Stop(At(1, 18, BeforeDecision), &SIXTEEN),
    Stop(At(2, 20, BeforeDecision), &SIXTEEN),
    Stop(At(3, 22, BeforeDecision), &SIXTEEN),
    Stop(At(4, 24, BeforeDecision), &SIXTEEN),
    Stop(At(5, 26, BeforeDecision), &SIXTEEN),
    Stop(At(6, 28, BeforeDecision), &SIXTEEN),
    Stop(At(7, 30, BeforeDecision), &SIXTEEN),
    Stop(At(8, 32, BeforeDecision), &SIXTEEN),
    Stop(At(9, 34, BeforeDecision), &SIXTEEN),
    Stop(At(10, 36, BeforeDecision), &SIXTEEN),
    Stop(At(11, 38, BeforeDecision), &SIXTEEN),
    Stop(At(12, 40, BeforeDecision), &SIXTEEN),
    Stop(At(13, 42, BeforeDecision), &SIXTEEN),
    Stop(At(14, 44, BeforeDecision), &SIXTEEN),
    Stop(At(15, 46, BeforeDecision), &SIXTEEN),
    Stop(At(16, 48, BeforeDecision), &SIXTEEN),
];
