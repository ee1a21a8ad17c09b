//! What becomes of a file whose plans are carried out.

ghost use Rattle.cedar_plan.specs.Words.{AppendsAreSafe, OpeningsAreSafe, WithdrawalsAreSafe};

/// A record that is appended by its plan counts once all steps are done, and a crash at any moment leaves the records from before it,
/// with or without the new one.
pub fn appends_are_safe()
    //= A record is appended by its plan: once all of it is done, the file is at rest and on the disk, and represents one more payload. A
    //  crash at any moment, even if a step fails, leaves the payloads from before it, with or without the new one.
    ensures { AppendsAreSafe }
{}

/// A record for which there was no room is withdrawn by a cut of the file where the record's first step began, which is on the disk then.
pub fn withdrawals_are_safe()
    //= A record for which there was no room is withdrawn: once what was written of it is cut off, the file is at rest and on the disk, and
    //  represents the payloads from before. A crash at any moment, even if the cut fails, leaves these.
    ensures { WithdrawalsAreSafe }
{}

/// A file that is opened by its plan represents the payloads that it represented, whenever a crash comes.
pub fn openings_are_safe()
    //= A file is opened by its plan: once all of it is done, the file is at rest and on the disk. A crash at any moment, even if a step
    //  fails, leaves the payloads that it represented.
    ensures { OpeningsAreSafe }
{}
