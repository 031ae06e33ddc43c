//! That the text of a cluster's run is the text along its net.
#![tactic(auto)]

ghost use Rattle.run_agreement.specs.Agreement.{LostUnits, RunAgreement};

/// What holds of a cluster of valid tables over any lines that fit it and under any script: the text of its
/// cycles, with the events of each in their order, is the text along its net, up to the first cycle in which a
/// unit is lost or a job is broken, and both end alike. The units that the text calls lost are those of which
/// at some tick neither replica runs.
pub fn run_agreement()
    ensures text { RunAgreement }
    ensures lost { LostUnits }
{}
