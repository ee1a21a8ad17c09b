//! What is kept as words: a dictionary on a device, and the changes 0, 1 and so on that are made in it.

ghost use Rattle.std.specs.Prelude.{◌≡◌, false};
ghost use Rattle.cedar_store.specs.Words.{IsReady, Only};

use crate::kill::{Work, print_all};
use anyhow::{Result, anyhow, bail};
use cedar_journal::{DeviceError, ReplaceDevice};
use cedar_store::{CedarStore, Change, Compaction, DurableError};
use std::alloc::Global;

/// Which changes are made: the number of the first one, how many there are, and how many are made as one.
#[derive(Clone, Copy)]
pub(crate) struct Turns {
    pub(crate) first: u64,
    pub(crate) count: u64,
    pub(crate) size: u64,
}

/// Which keys the changes are about.
#[derive(Clone, Copy)]
enum Keys {
    /// 997 keys, of which each fifth change erases one.
    Few,
    /// One for each change, as long as their numbers are below `MANY`. None erases it.
    Own,
}

/// How many keys there are if they are few.
const FEW: u64 = 997;

/// How many keys there are else, a prime number.
const MANY: u64 = 10_000_019;

/// One more than the greatest value.
const VALUES: u64 = 2_147_483_646;

/// The file is compacted so often that many kills come during it.
const OFTEN: Compaction = Compaction::Beyond {
    factor: 2,
    spare: 1024,
};

/// After how many changes it is compacted in any case.
const TURNS: u64 = 101;

/// Opens the dictionary on a device, and does this with it.
pub(crate) fn on_store<D: ReplaceDevice + Drop>(
    rt: &HostRuntime,
    device: D,
    work: Work,
    turns: Turns,
) -> Result<()>
    requires restarted { Only (D.seen device) (D.may_leave device) }
{
    let compaction = match work {
        Work::Grow | Work::Fill => Compaction::Never,
        _ => OFTEN,
    };
    let mut store = match CedarStore::open(rt.alloc(), device) {
        Ok(store) => store,
        Err((error, _)) => return Err(told(error)),
    };
    store.set_compaction(compaction);
    match work {
        Work::Batch | Work::Grow => batches(rt, store, Keys::Few, turns)?,
        Work::Fill => batches(rt, store, Keys::Own, turns)?,
        Work::Entries => print_all(rt, store.dictionary())?,
        Work::Len => println!(rt; "{}", store.dictionary().len())?,
        Work::Mend => {
            store.compact()?;
            println!(rt; "{}", store.dictionary().len())?;
        }
        _ => changes(rt, store, work, turns)?,
    }
    Ok(())
}

/// Makes changes one by one.
fn changes<D: ReplaceDevice + Drop>(
    rt: &HostRuntime,
    store: CedarStore<Global, D>,
    work: Work,
    turns: Turns,
) -> Result<()>
    requires { IsReady D.seen D.may_leave store.journal.device store.journal.format store.journal.end (store.words.state) store.failed }
{
    let mut store = store;
    for turn in 0..turns.count {
        change_or_tell(rt, &mut store, work, turns.first.saturating_add(turn))?;
    }
    Ok(())
}

/// Makes the change of a number. If it isn't made, what follows is the verb's.
fn change_or_tell<D: ReplaceDevice>(
    rt: &HostRuntime,
    store: &mut CedarStore<Global, D>,
    work: Work,
    number: u64,
) -> Result<()>
    requires { IsReady D.seen D.may_leave store.old.journal.device store.old.journal.format store.old.journal.end (store.old.words.state) store.old.failed }
    ensures { IsReady D.seen D.may_leave store.new.journal.device store.new.journal.format store.new.journal.end (store.new.words.state) store.new.failed }
{
    let Err(error) = change(store, rt.alloc(), number) else {
        println!(rt; "{number}")?;
        return Ok(());
    };
    if matches!(work, Work::Change) {
        return Err(error);
    }
    println!(rt; "{number}: {error}")?;
    if matches!(work, Work::Persist) && mend(store) {
        println!(rt; "mended")?;
    }
    Ok(())
}

/// Puts the file anew in its place, and returns whether that succeeded.
fn mend<D: ReplaceDevice>(store: &mut CedarStore<Global, D>) -> bool
    requires { IsReady D.seen D.may_leave store.old.journal.device store.old.journal.format store.old.journal.end (store.old.words.state) store.old.failed }
    ensures { IsReady D.seen D.may_leave store.new.journal.device store.new.journal.format store.new.journal.end (store.new.words.state) store.new.failed }
{
    store.compact().is_ok()
}

/// Makes the change of a number. Whether it is made or not, others can be asked for.
fn change<D: ReplaceDevice>(
    store: &mut CedarStore<Global, D>,
    alloc: Global,
    number: u64,
) -> Result<()>
    requires { IsReady D.seen D.may_leave store.old.journal.device store.old.journal.format store.old.journal.end (store.old.words.state) store.old.failed }
    ensures { IsReady D.seen D.may_leave store.new.journal.device store.new.journal.format store.new.journal.end (store.new.words.state) store.new.failed }
{
    let key = Keys::Few.text(alloc, number)?;
    match Keys::Few.change(number, key.as_str()) {
        Change::Erase { key } => match store.erase_bytes(key) {
            Ok(_) => {}
            Err(error) => return Err(told(error)),
        },
        Change::Update { key, value } => match store.update_bytes(key, value) {
            Ok(()) => {}
            Err(error) => return Err(told(error)),
        },
    }
    if number % TURNS == 0 && store.compact().is_err() {
        bail!("the disk failed");
    }
    Ok(())
}

/// Makes batches of changes, and prints each time how many changes are made.
fn batches<D: ReplaceDevice + Drop>(
    rt: &HostRuntime,
    store: CedarStore<Global, D>,
    keys: Keys,
    turns: Turns,
) -> Result<()>
    requires { IsReady D.seen D.may_leave store.journal.device store.journal.format store.journal.end (store.words.state) store.failed }
{
    let mut store = store;
    let size = turns.size.max(1);
    for turn in 0..turns.count / size {
        let done = turn.saturating_mul(size);
        let first = turns.first.saturating_add(done);
        change_together(&mut store, rt.alloc(), keys, first, size)?;
        println!(rt; "{}", done.saturating_add(size))?;
    }
    Ok(())
}

/// Makes `count` changes as one, numbered from `first` on.
fn change_together<D: ReplaceDevice>(
    store: &mut CedarStore<Global, D>,
    alloc: Global,
    keys: Keys,
    first: u64,
    count: u64,
) -> Result<()>
    requires { IsReady D.seen D.may_leave store.old.journal.device store.old.journal.format store.old.journal.end (store.old.words.state) store.old.failed }
    ensures { IsReady D.seen D.may_leave store.new.journal.device store.new.journal.format store.new.journal.end (store.new.words.state) store.new.failed }
{
    let mut texts = Vec::new(alloc);
    for turn in 0..count {
        texts.push(keys.text(alloc, first.saturating_add(turn))?)?;
    }
    let mut changes = Vec::new(alloc);
    let mut number = first;
    for text in texts.iter() {
        changes.push(keys.change(number, text.as_str()))?;
        number = number.saturating_add(1);
    }
    match store.apply_batch(&changes) {
        Ok(()) => Ok(()),
        Err(error) => Err(told(error)),
    }
}

/// Returns why a change wasn't made, or a store not opened, in the words that the tests know.
fn told(error: DurableError) -> anyhow::Error {
    match error {
        DurableError::NoRoom => anyhow!("there is no room"),
        DurableError::Failed => anyhow!("the device failed before"),
        DurableError::Device(DeviceError::NoRoom | DeviceError::Failed) => {
            anyhow!("the disk failed")
        }
        other => other.into(),
    }
}

impl Keys {
    /// Returns the change of a number, which has this key: it stores a value there, or erases the key.
    fn change(self, number: u64, key: &str) -> Change<'_> {
        let key = key.as_bytes();
        let is_erased = match self {
            Keys::Few => number % 5 == 4,
            Keys::Own => false,
        };
        if is_erased {
            Change::Erase { key }
        } else {
            let value = (number % VALUES) as i32;
            Change::Update { key, value }
        }
    }

    /// Returns the key that the change of a number is about: the number of the key, and if keys are few up to 22 letters after it.
    fn text(self, alloc: Global, number: u64) -> Result<String> {
        match self {
            Keys::Few => {
                let of = number % FEW * 619 % FEW;
                let mut key = format!(in alloc; "{of}")?;
                for _ in 0..of % 23 {
                    key.push('k')?;
                }
                Ok(key)
            }
            Keys::Own => {
                let of = number % MANY * 7_368_787 % MANY;
                Ok(format!(in alloc; "{of}")?)
            }
        }
    }
}
