//! Files of the operating system as devices of the journal: written in place, and replaced at one stroke. What is written as a whole, and
//! what is opened to be read, is `whole_files`; its public names are here too.
#![tactic(auto)]

mod account;
mod file;
mod lock;
mod names;
mod noted;
mod opening;
mod system;
mod writes;

pub(crate) use account::Account;
pub use cedar_journal::{ReplaceDevice, ReplaceError};
pub use file::FileDevice;
pub use lock::LockFile;
pub use system::{OpenError, read_file};
pub use whole_files::{
    FileToRead, NewFile, NotBegun, NotPlaced, PathCalls, Sent, Special, Unplaced, begin_beside,
    begin_special, open_to_read, special_at, whole_files_are_safe,
};
