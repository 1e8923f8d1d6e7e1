// One command of each block, to its bytes and back.
use commands::{Command, DepthStreams, KeyDepths, UnknownCommand, decode};
use std::process::Abort;
use std::test::Fail;

// The command writes its bytes and no more, is read back from them, and writes nothing where one byte of room is missing.
fn there_and_back(rt: &impl Abort, command: Command, name: &str, bytes: &[u8]) {
    let len = bytes.len();
    assert!(rt; 0 < len && len <= 12, "{name}");
    let before = [0xA5; 12];
    let mut area = before;
    assert_eq!(rt; command.encode(&mut area[0..len - 1]), None, "{name}");
    assert_eq!(rt; area, before, "{name}");
    assert_eq!(rt; command.encode(&mut area), Some(len), "{name}");
    assert_eq!(rt; &area[0..len], bytes, "{name}");
    assert_eq!(rt; &area[len..12], &before[len..12], "{name}");
    assert_eq!(rt; decode(&area), Ok(Some(command)), "{name}");
}

// The bytes are those of the command, and of none where the last is missing.
fn decodes(rt: &impl Abort, command: Command, name: &str, bytes: &[u8]) {
    assert!(rt; 0 < bytes.len(), "{name}");
    assert_eq!(rt; decode(bytes), Ok(Some(command)), "{name}");
    assert_eq!(rt;
        decode(&bytes[0..bytes.len() - 1]),
        Err(UnknownCommand),
        "{name}"
    );
}

fn stands_for(rt: &impl Abort, command: Command, name: &str, bytes: &[u8]) -> Result<(), Fail> {
    assert_eq!(rt; command.name(), name);
    assert_eq!(rt; command.len(), bytes.len(), "{name}");
    there_and_back(rt, command, name, bytes);
    decodes(rt, command, name, bytes);
    Ok(())
}

#[test]
fn references(rt: HostRuntime) -> Result<(), Fail> {
    stands_for(&rt, Command::Root { out: 254 }, "ROOT", b"\x01\xFE")?;
    let scan = Command::Scan {
        tensor: 7,
        level: 2,
        references: 9,
        coordinates_out: 16,
        references_out: 17,
    };
    stands_for(&rt, scan, "SCAN", b"\x02\x07\x02\x09\x10\x11")?;
    let align = Command::Align {
        coordinates: 2,
        references: 3,
        z: 6,
        out: 7,
    };
    stands_for(&rt, align, "ALIGN", b"\x05\x02\x03\x06\x07")?;
    let repeat = Command::Repeat {
        references: 1,
        z: 2,
        out: 5,
    };
    stands_for(&rt, repeat, "REPEAT", b"\x06\x01\x02\x05")
}

#[test]
fn merges(rt: HostRuntime) -> Result<(), Fail> {
    stands_for(
        &rt,
        Command::Meet { a: 2, b: 4, out: 6 },
        "MEET",
        b"\x03\x02\x04\x06",
    )?;
    stands_for(
        &rt,
        Command::Join {
            a: 8,
            b: 6,
            out: 12,
        },
        "JOIN",
        b"\x04\x08\x06\x0C",
    )
}

#[test]
fn values(rt: HostRuntime) -> Result<(), Fail> {
    let load = Command::Load {
        tensor: 1,
        references: 8,
        out: 10,
    };
    stands_for(&rt, load, "LOAD", b"\x07\x01\x08\x0A")?;
    stands_for(
        &rt,
        Command::Mul {
            a: 9,
            b: 10,
            out: 11,
        },
        "MUL",
        b"\x08\x09\x0A\x0B",
    )?;
    stands_for(
        &rt,
        Command::Add {
            a: 20,
            b: 19,
            out: 23,
        },
        "ADD",
        b"\x09\x14\x13\x17",
    )?;
    stands_for(&rt, Command::Sum { a: 11, out: 12 }, "SUM", b"\x0A\x0B\x0C")
}

#[test]
fn writes(rt: HostRuntime) -> Result<(), Fail> {
    let write = Command::Write {
        depth: 3,
        values: 12,
        coordinates: DepthStreams {
            bytes: [4, 5, 6, 0xFF],
        },
        keys: KeyDepths { bytes: [3, 1, 0] },
    };
    stands_for(
        &rt,
        write,
        "WRITE",
        b"\x0B\x03\x0C\x04\x05\x06\xFF\x03\x01\x00",
    )
}
