//! What follows from the steps of runs alone.

ghost use Rattle.cedar_runs.specs.Words.{AcknowledgedCallsStay};

use cedar_journal::Device;

/// Acknowledged calls stay, however often a store is stopped. A life is a list of sessions: in each one the file is opened that the crash
/// of the one before left, calls are made, and a crash comes at any moment, while the file is opened, in a call or between two. Then the
/// file at the end represents the dictionary after the acknowledged calls of all sessions, in their order, and of each session perhaps the
/// one call more that was under way, or in which the device had failed.
pub fn acknowledged_calls_stay<D: Device>()
    //= Whatever calls are made of a store, a crash at any moment, an opening, and so again and again leave a file that represents the
    //  dictionary after all acknowledged calls, in their order, with the call under way at each crash or without it: none is skipped, and
    //  none is made in part. [by AcknowledgedCallsStay, lived]
    ensures { AcknowledgedCallsStay D.seen D.moment D.left_since D.may_leave }
{}
