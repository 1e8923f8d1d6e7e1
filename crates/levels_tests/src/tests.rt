// Small cases of every format.
ghost use Rattle.std.specs.Prelude.{◌≡◌};

use crate::mirrored::Mirrored;
use formats::{Compressed, Dense, Entry, Format, LevelSize, Short};
use levels::{Formats, StoredLevel, Two};
use std::test::Fail;

fn entry(owner: u32, coordinate: u32) -> Entry
    ensures { result ≡ record { owner = owner; coordinate = coordinate } }
{
    Entry { owner, coordinate }
}

#[test]
fn falling_owners(rt: HostRuntime) {
    let size = LevelSize {
        extent: 4,
        fibers: 3,
        entries: 4,
    };
    let mut words = [9u32; 10];
    let entries = [entry(2, 1), entry(0, 0), entry(2, 2), entry(0, 3)];
    let built = Two::<Dense, Compressed>::build(1, size, &entries, &mut words).is_ok();
    assert!(rt; built);
    assert!(rt; words == [0, 2, 2, 4, 0, 3, 1, 2, 9, 9]);
    assert!(rt; Two::<Dense, Compressed>::count(1, size, &words, 1) == Some(0));
    assert!(rt; Two::<Dense, Compressed>::at(1, size, &words, 2, 1) == Some((2, 3)));
    assert!(rt; Two::<Dense, Compressed>::at(1, size, &words, 2, 2) == None);
    let level = StoredLevel {
        number: 1,
        size,
        words: &words,
    };
    assert!(rt; level.find::<Two<Dense, Compressed>>(0, 3) == Some(1));
    assert!(rt; level.find::<Two<Dense, Compressed>>(2, 3) == None);
    assert!(rt; level.fiber_len::<Two<Dense, Compressed>>(2) == 2);
    assert!(rt; level.item::<Two<Dense, Compressed>>(2, 1) == (2, 3));
    assert!(rt; level.item::<Two<Dense, Compressed>>(2, 2) == (0, 0));
}

#[test]
fn one_word_too_few(rt: HostRuntime) -> Result<(), Fail> {
    let size = LevelSize {
        extent: 4,
        fibers: 2,
        entries: 1,
    };
    let mut few = [9u32; 3];
    let mut enough = [9u32; 4];
    match Two::<Dense, Compressed>::build(1, size, &[entry(1, 3)], &mut few) {
        Ok(()) => return Err(Fail::new("built in too few words")),
        Err(short) => assert!(rt; short == Short { need: 4, free: 3 }),
    }
    assert!(rt; few == [9, 9, 9]);
    assert!(rt; Two::<Dense, Compressed>::build(1, size, &[entry(1, 3)], &mut enough).is_ok());
    assert!(rt; enough == [0, 0, 1, 3]);
    Ok(())
}

#[test]
fn empty_level(rt: HostRuntime) {
    let size = LevelSize {
        extent: 4,
        fibers: 0,
        entries: 0,
    };
    let mut words = [9u32; 2];
    assert!(rt; Two::<Dense, Compressed>::need(1, size) == 1);
    assert!(rt; Two::<Dense, Compressed>::build(1, size, &[], &mut words).is_ok());
    assert!(rt; words == [0, 9]);
    assert!(rt; Two::<Dense, Compressed>::fibers(1, size, &words) == 0);
    assert!(rt; Two::<Dense, Compressed>::count(1, size, &words, 0) == None);
}

#[test]
fn children_backwards(rt: HostRuntime) {
    let size = LevelSize {
        extent: 4,
        fibers: 3,
        entries: 1,
    };
    let mut words = [9u32; 1];
    assert!(rt; Two::<Dense, Mirrored>::build(1, size, &[entry(1, 2)], &mut words).is_ok());
    assert!(rt; words == [9]);
    assert!(rt; Two::<Dense, Mirrored>::children(1, size) == 12);
    let words = &words;
    let mirrored = StoredLevel {
        number: 1,
        size,
        words,
    };
    let dense = StoredLevel {
        number: 0,
        size,
        words,
    };
    assert!(rt; mirrored.find::<Two<Dense, Mirrored>>(1, 2) == Some(5));
    assert!(rt; dense.find::<Two<Dense, Mirrored>>(1, 2) == Some(6));
}
