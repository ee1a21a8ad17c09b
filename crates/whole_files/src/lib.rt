//! Files that are written beside the one at a path, and take its place once they are whole; what isn't a file, written to as it is; and
//! files that are opened to be read. Each call on them is noted, for contracts to cite. `cedar_disk` takes of these what it says of the
//! files that it writes in place.
#![tactic(auto)]

mod begun;
mod history;
mod laws;
mod looks;
mod names;
mod not_begun;
mod noted;
mod opening;
mod sending;
mod special;
mod whole;
mod wrote;

pub use begun::{Unplaced, begin_beside, begin_special};
pub use history::{History, NAMED, OPENED, SYNCED};
pub use laws::whole_files_are_safe;
pub use looks::{OWN_MODE, leads_to, look_like, make_new};
pub use names::PATH_LEN;
pub use not_begun::NotBegun;
pub use noted::PathCalls;
pub use opening::{FileToRead, Folder, OPENED_AT, open_folder_of, open_to_read};
pub use sending::Sent;
pub use special::{Special, special_at};
pub use whole::{NewFile, NotPlaced};
pub use wrote::{MAX_OFFSET, Wrote, wrote_of};
