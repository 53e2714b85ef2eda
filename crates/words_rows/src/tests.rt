mod operators;

use dom_words::{FnvUnits, HashName, HashUnits, Name, Names, Packet, Seq, read_count, read_word};
use std::test::Fail;

const WORDS: [(&[u8], Option<u32>); 6] = [
    (b"-2147483648", Some(0x8000_0000)),
    (b"-2147483649", None),
    (b"-0", Some(0)),
    (b"4294967295", Some(u32::MAX)),
    (b"4294967296", None),
    (b"-", None),
];

#[test]
fn words(rt: HostRuntime) -> Result<(), Fail> {
    for (text, word) in WORDS {
        assert_eq!(rt; read_word(text), word);
    }
    assert_eq!(rt; read_count(b"0000000012"), Some(12));
    assert_eq!(rt; read_count(b"00000000012"), None);
    Ok(())
}

const NO_HASH_NAMES: [&[u8]; 4] = [b"hash0", b"hash1i", b"hash", b"hash11"];

#[test]
fn hashes(rt: HostRuntime) -> Result<(), Fail> {
    let one = HashName { args: 1, letter: 0 };
    let two = HashName { args: 2, letter: 1 };
    let three = HashName { args: 3, letter: 2 };
    assert_eq!(rt; FnvUnits.apply(one, &[0]), 303091727);
    assert_eq!(rt; FnvUnits.apply(two, &[1, 2]), 0x25569e4f);
    assert_eq!(rt; HashName::named(b"hash3b"), Some(three));
    for name in NO_HASH_NAMES {
        assert_eq!(rt; HashName::named(name), None);
    }
    Ok(())
}

#[test]
fn lists(rt: HostRuntime) -> Result<(), Fail> {
    let mut counts = Seq::new(rt.alloc());
    counts.push(7)?;
    assert_eq!(rt; counts.as_slice(), [7].as_slice());
    let packet = Packet::zeros(rt.alloc(), 2)?;
    assert_eq!(rt; packet.words(), [0, 0].as_slice());
    Ok(())
}

const ADDED: [(&[u8], bool); 3] = [(b"x", true), (b"y", true), (b"x", false)];

#[test]
fn names(rt: HostRuntime) -> Result<(), Fail> {
    let mut names = Names::new(rt.alloc());
    for (text, is_new) in ADDED {
        let name = Name::of(rt.alloc(), text)?;
        assert_eq!(rt; names.add(name)?, is_new);
    }
    assert_eq!(rt; names.find(b"y"), Some(1));
    assert_eq!(rt; names.len(), 2);
    let same = names.copy(rt.alloc())?;
    assert_eq!(rt; same.len(), 2);
    assert!(rt; 1 < same.len());
    assert_eq!(rt; same.get(1), b"y".as_slice());
    Ok(())
}
