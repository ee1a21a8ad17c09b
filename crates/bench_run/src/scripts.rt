//! Scripts, as `./cedar` runs them: lines of hexadecimal keys that store, erase, look up, complete and cut.

use crate::digest::Digest;
use crate::ids::{addresses, push_hexadecimal};
use crate::made::{Random, Scale, Texts, pick};
use crate::words::western;
use anyhow::{Result, bail};
use cedar_cli::run_script;
use cedarwood::{Cedar, Watched};
use std::alloc::{AllocError, Global};

/// Runs two scripts, one of short keys and one of long ones, and adds what they answer.
pub(crate) fn scripts(alloc: Global, scale: Scale) -> Result<Digest> {
    let mut digest = Digest::new();
    let mut random = scale.random(6);
    let script = short_script(alloc, scale, &mut random)?;
    run(alloc, &script, &mut digest)?;
    let script = long_script(alloc, scale, &mut random)?;
    run(alloc, &script, &mut digest)?;
    Ok(digest)
}

/// A script whose keys are words.
fn short_script(alloc: Global, scale: Scale, random: &mut Random) -> Result<Vec<u8>, AllocError> {
    let words = western(alloc, random, scale.of(150_000))?;
    let keys = in_digits(alloc, &words.all(alloc)?)?;
    lines(alloc, random, &keys.all(alloc)?, scale.of(2_000_000))
}

/// A script whose keys are addresses of pages.
fn long_script(alloc: Global, scale: Scale, random: &mut Random) -> Result<Vec<u8>, AllocError> {
    let words = addresses(alloc, random, scale.of(60_000))?;
    let keys = in_digits(alloc, &words.all(alloc)?)?;
    lines(alloc, random, &keys.all(alloc)?, scale.of(200_000))
}

/// Runs a script on an empty dictionary.
fn run(alloc: Global, script: &[u8], digest: &mut Digest) -> Result<()> {
    let mut cedar = Cedar::new(alloc)?;
    let mut reader = Watched::new(script);
    let mut writer = Watched::new(Vec::new(alloc));
    if run_script(alloc, &mut cedar, &mut reader, &mut writer).is_err() {
        bail!("the script failed");
    }
    digest.add_bytes(&writer.into_inner());
    Ok(())
}

/// Returns keys in hexadecimal digits.
fn in_digits(alloc: Global, keys: &[&[u8]]) -> Result<Texts, AllocError> {
    let mut texts = Texts::new(alloc);
    for key in keys {
        push_hexadecimal(&mut texts, key)?;
        texts.end()?;
    }
    Ok(texts)
}

/// Returns the lines of a script, whose keys are of a list. Of twenty lines nine store, six look up, two erase, and one each asks for prefixes,
/// completes, or cuts.
fn lines(
    alloc: Global,
    random: &mut Random,
    keys: &[&[u8]],
    count: usize,
) -> Result<Vec<u8>, AllocError> {
    let mut texts = Texts::new(alloc);
    for _ in 0..count {
        let key = pick(keys, random.below(keys.len()));
        match random.below(20) {
            0..9 => {
                push_line(&mut texts, b"+ ", key)?;
                texts.push(b' ')?;
                push_value(&mut texts, random)?;
            }
            9..15 => push_line(&mut texts, b"= ", key)?,
            15..17 => push_line(&mut texts, b"- ", key)?,
            17 => push_line(&mut texts, b"< ", key)?,
            18 => push_line(&mut texts, b"/ ", key)?,
            _ => push_line(&mut texts, b"> ", front_of(key))?,
        }
        texts.push(b'\n')?;
    }
    Ok(texts.into_bytes())
}

/// Returns a prefix of a key that few keys begin with, about three quarters of it. Each of its bytes has two digits.
fn front_of(key: &[u8]) -> &[u8] {
    let bytes = key.len() / 2;
    key.get(..2 * (bytes - bytes / 4)).unwrap_or(key)
}

/// Writes a command and its key.
fn push_line(texts: &mut Texts, command: &[u8], key: &[u8]) -> Result<(), AllocError> {
    texts.extend(command)?;
    texts.extend(key)
}

/// Writes a value of five digits.
fn push_value(texts: &mut Texts, random: &mut Random) -> Result<(), AllocError> {
    texts.push(b'1')?;
    crate::words::push_digits(texts, random, 4)
}
