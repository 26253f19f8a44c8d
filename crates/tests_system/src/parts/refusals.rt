//! What a refusal says.
use sq_base::{CheckNo, ConnNo, EpochNo, ProcNo};
use sq_farm::FarmFault;
use sq_machine::Refusal;
use std::alloc::Global;
use std::process::Abort;

/// Ends the process unless the machine's refusal says this.
fn check_refusal(rt: &impl Abort, alloc: Global, refusal: Refusal, wanted: &str) {
    let came = format!(in alloc; "{refusal}").expect(rt, "memory");
    assert!(rt; came.as_str() == wanted, "{came}");
}

/// Ends the process unless the farm's fault says this.
fn check_fault(rt: &impl Abort, alloc: Global, fault: FarmFault, wanted: &str) {
    let came = format!(in alloc; "{fault}").expect(rt, "memory");
    assert!(rt; came.as_str() == wanted, "{came}");
}

#[test]
fn refusals_say_why(rt: HostRuntime) {
    for (refusal, wanted) in [
        (
            Refusal::ConnInUse(ConnNo(1)),
            "connection 1 is open already",
        ),
        (Refusal::UnknownConn(ConnNo(2)), "connection 2 is not open"),
        (
            Refusal::CheckOpen(CheckNo(3)),
            "check 3 of the connection is open",
        ),
        (Refusal::UnknownCheck(CheckNo(4)), "check 4 is not open"),
        (
            Refusal::NotDone(CheckNo(5)),
            "no step said that check 5 is done",
        ),
        (
            Refusal::NoStartOpen(EpochNo(6), 7),
            "no start of epoch 6 and class 7 is open",
        ),
        (Refusal::UnknownProc(ProcNo(8)), "process 8 does not live"),
        (
            Refusal::TooManyEpochs(16),
            "no more than 16 epochs may have an open check",
        ),
    ] {
        check_refusal(&rt, rt.alloc(), refusal, wanted);
    }
    let fault = FarmFault::UnknownProc;
    check_fault(&rt, rt.alloc(), fault, "the process does not live");
}
