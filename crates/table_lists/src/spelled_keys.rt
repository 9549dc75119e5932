// The table of the bytes of keys, in hexadecimal digits.
use crate::fault::{Answer, Fault};
use crate::keys::{key, key_text};
use crate::words::{bytes, halves, hex, order, truth};
use dg_keys::{Key, KeyFault, is_plain, key_bytes, read_key};
use std::alloc::Global;

pub(crate) fn answer(alloc: Global, command: &str, words: &[&str]) -> Answer<String> {
    match command {
        "read" => match *words {
            [word] => read(alloc, bytes(alloc, word)?.as_slice()),
            _ => Err(Fault::Unfit),
        },
        "order" => {
            let (before, behind) = halves(words, "|")?;
            let a = bytes_of(alloc, &key(alloc, before)?)?;
            let b = bytes_of(alloc, &key(alloc, behind)?)?;
            Ok(order(alloc, a.as_slice().cmp(b.as_slice()))?)
        }
        _ => asked(alloc, command, &key(alloc, words)?),
    }
}

fn asked(alloc: Global, command: &str, key: &Key) -> Answer<String> {
    match command {
        "plain" => Ok(truth(alloc, is_plain(key))?),
        "of" => Ok(hex(alloc, bytes_of(alloc, key)?.as_slice())?),
        "back" => read(alloc, bytes_of(alloc, key)?.as_slice()),
        _ => Err(Fault::Unfit),
    }
}

// The bytes of a key that may be asked for them.
fn bytes_of(alloc: Global, key: &Key) -> Answer<Vec<u8>> {
    if !is_plain(key) {
        return Err(Fault::Unfit);
    }
    Ok(key_bytes(alloc, key)?)
}

// The key that has the bytes, or why there is none.
fn read(alloc: Global, bytes: &[u8]) -> Answer<String> {
    match read_key(alloc, bytes) {
        Ok(key) => Ok(key_text(alloc, &key)?),
        Err(KeyFault::OutOfMemory) => Err(Fault::OutOfMemory),
        Err(fault) => Ok(fault.to_string(alloc)?),
    }
}
