//! The statuses that C gets, those of `cedar.h`, and their texts.

ghost use Rattle.std.specs.Prelude.{◌++◌, ◌≡◌, ◌⊎◌, drop, length, take};
ghost use Rattle.cedar_c.specs.Words.{position_of, status_of, status_text, TellsPosition};

use crate::save::copy_front;
use cedarwood::CedarError;

/// The call did what it says.
pub(crate) const OK: u32 = 0;

/// The handle has no dictionary.
pub(crate) const CLOSED: u32 = 1;

/// An allocation was refused.
pub(crate) const MEMORY: u32 = 2;

/// The limit of slots doesn't allow as many as are needed.
pub(crate) const SLOT_LIMIT: u32 = 3;

/// The key has no byte.
pub(crate) const EMPTY_KEY: u32 = 4;

/// The key has a byte 0.
pub(crate) const NUL_BYTE: u32 = 5;

/// The value is below 0 or above 2147483645.
pub(crate) const INVALID_VALUE: u32 = 6;

/// The number of trials is 0 or less.
pub(crate) const INVALID_MAX_TRIAL: u32 = 7;

/// A sorted pair's key repeats the one before it.
pub(crate) const DUPLICATE_KEY: u32 = 8;

/// A sorted pair's key is below the one before it.
pub(crate) const KEYS_NOT_SORTED: u32 = 9;

/// An error that has no number yet.
pub(crate) const OTHER: u32 = 10;

/// The buffer has too few elements.
pub(crate) const NO_ROOM: u32 = 11;

/// A walk can't go on after a key, since the labels of the dictionary don't ascend.
pub(crate) const NOT_ASCENDING: u32 = 12;

/// The pattern has more bytes than a pattern may have.
pub(crate) const PATTERN_TOO_LONG: u32 = 13;

/// No search has the number.
pub(crate) const UNKNOWN_SEARCH: u32 = 14;

/// The query isn't UTF-8.
pub(crate) const QUERY_NOT_UTF8: u32 = 15;

/// The file ends too early.
pub(crate) const FILE_TRUNCATED: u32 = 20;

/// It isn't a file of this format.
pub(crate) const FILE_MAGIC: u32 = 21;

/// The file is of another version than 1.0 and 1.1.
pub(crate) const FILE_VERSION: u32 = 22;

/// The file's byte order isn't the format's.
pub(crate) const FILE_BYTE_ORDER: u32 = 23;

/// The file is of a table of the other layout.
pub(crate) const FILE_LAYOUT: u32 = 24;

/// A number of the file's header is out of its rule.
pub(crate) const FILE_HEADER: u32 = 25;

/// The file needs more memory than the limit that was given.
pub(crate) const FILE_MEMORY_LIMIT: u32 = 26;

/// The file's table isn't well-formed.
pub(crate) const FILE_CORRUPT: u32 = 27;

/// Something follows the file's table.
pub(crate) const FILE_TRAILING: u32 = 28;

/// The reading itself failed, which that of bytes in memory doesn't.
pub(crate) const FILE_UNREAD: u32 = 29;

/// It is no file of a store.
pub(crate) const STORE_FOREIGN: u32 = 40;

/// A record of the store's file is no change.
pub(crate) const STORE_CORRUPT: u32 = 41;

/// A call on the store's file failed: only C returns it.
pub(crate) const STORE_DEVICE: u32 = 42;

/// The store has failed before: only C returns it.
pub(crate) const STORE_FAILED: u32 = 43;

/// The change has 2^32 bytes or more.
pub(crate) const STORE_TOO_LONG: u32 = 44;

/// The records of the store's file end after 2^60 bytes.
pub(crate) const STORE_FULL: u32 = 45;

/// A record of the store's file was changed by somebody else.
pub(crate) const STORE_DAMAGED: u32 = 46;

/// The store is open already: only C returns it.
pub(crate) const STORE_LOCKED: u32 = 47;

/// The store was opened to read: only C returns it.
pub(crate) const STORE_READ_ONLY: u32 = 48;

/// The store's file wasn't replaced by a shorter one: only C returns it.
pub(crate) const STORE_KEPT: u32 = 49;

/// There was no room for a change's record: only C returns it.
pub(crate) const STORE_NO_ROOM: u32 = 50;

/// The number of an error. If a byte 0 was refused, it writes its position, and if a key isn't above the one before it, the index of its
/// pair.
pub(crate) fn tell(error: CedarError, position: &mut usize) -> u32
    ensures status { result ≡ status_of error }
    ensures position { position.new ≡ position_of position.old error }
    ensures stays { TellsPosition result ⊎ (position.new ≡ position.old) }
{
    match error {
        CedarError::Memory => MEMORY,
        CedarError::SlotLimit => SLOT_LIMIT,
        CedarError::EmptyKey => EMPTY_KEY,
        CedarError::NulByte { position: at } => {
            *position = at;
            NUL_BYTE
        }
        CedarError::InvalidValue { .. } => INVALID_VALUE,
        CedarError::InvalidMaxTrial { .. } => INVALID_MAX_TRIAL,
        CedarError::DuplicateKey { index } => {
            *position = index;
            DUPLICATE_KEY
        }
        CedarError::KeysNotSorted { index } => {
            *position = index;
            KEYS_NOT_SORTED
        }
        _ => OTHER,
    }
}

/// Writes the text of a status into the first elements of a buffer, as far as there is room, and returns how many bytes it has. It has no
/// byte 0 at its end.
#[unsafe(no_mangle)]
pub extern "C" fn cedar_status_text(status: u32, text: &mut [u8]) -> usize
    //= Each status has its text (`status_text`), and all other numbers have one. The call writes the text's first bytes, as far as there
    //  are elements, doesn't change the other elements, and returns the text's length. [with written]
    ensures count { result ≡ length (status_text status) }
    ensures written { text.new ≡ take (length text.old) (status_text status) ++ drop (length (status_text status)) text.old }
{
    copy_front(text_of(status).as_bytes(), text)
}

/// The text of a status.
fn text_of(status: u32) -> &'static str
    ensures { result.now ≡ status_text status }
{
    match status {
        OK => "done",
        CLOSED => "the dictionary is closed",
        MEMORY => "out of memory",
        SLOT_LIMIT => "cedar trie has no slot left",
        EMPTY_KEY => "cedar keys must not be empty",
        NUL_BYTE => "cedar keys must not contain the terminal byte 0x00",
        INVALID_VALUE => "cedar value is outside the supported range 0..=2147483645",
        INVALID_MAX_TRIAL => "max_trial must be greater than zero",
        DUPLICATE_KEY => "duplicate key in sorted input",
        KEYS_NOT_SORTED => "key in sorted input is smaller than its predecessor",
        NO_ROOM => "the buffer is too short",
        NOT_ASCENDING => "the labels of the dictionary do not ascend",
        PATTERN_TOO_LONG => "the pattern has more than 63 bytes",
        UNKNOWN_SEARCH => "there is no such search",
        QUERY_NOT_UTF8 => "the query is not UTF-8",
        FILE_TRUNCATED => "serialized cedar trie is truncated",
        FILE_MAGIC => "input is not a cedarwood serialized trie",
        FILE_VERSION => "unsupported cedarwood format version",
        FILE_BYTE_ORDER => "unsupported cedarwood byte-order marker",
        FILE_LAYOUT => "serialized trie layout does not match",
        FILE_HEADER => "invalid serialized header field",
        FILE_MEMORY_LIMIT => "serialized trie requires more bytes while loading than the limit",
        FILE_CORRUPT => "corrupt serialized trie",
        FILE_TRAILING => "serialized trie has trailing data",
        FILE_UNREAD => "persistence I/O error",
        STORE_FOREIGN => "the file is not of a store",
        STORE_CORRUPT => "a record of the store's file is no change",
        STORE_DEVICE => "a call on the store's file failed",
        STORE_FAILED => "the store has failed: compact it to go on",
        STORE_TOO_LONG => "the change is too long for a record",
        STORE_FULL => "the store's file is too long",
        STORE_DAMAGED => "a record of the store's file is damaged",
        STORE_LOCKED => "the store is open already, in another program or in this one",
        STORE_READ_ONLY => "the store was opened to read",
        STORE_KEPT => "the store's file was kept: a call on the new one failed",
        STORE_NO_ROOM => "there is no room for the change in the store's file",
        _ => "an error without a text",
    }
}
