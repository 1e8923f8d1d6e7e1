// Every string of at most two bytes through the decoder. ROOT alone is as short as that.
use commands::{Command, UnknownCommand, decode};

#[test]
fn no_byte(rt: HostRuntime) {
    assert_eq!(rt; decode(&[]), Err(UnknownCommand));
}

#[test]
fn every_byte(rt: HostRuntime) {
    for byte in 0..=255u8 {
        let expected = if byte == 0x00 {
            Ok(None)
        } else {
            Err(UnknownCommand)
        };
        assert_eq!(rt; decode(&[byte]), expected, "{}", byte);
    }
}

#[test]
fn every_pair(rt: HostRuntime) {
    for pair in 0..=65535u16 {
        let [first, second] = pair.to_be_bytes();
        let expected = match first {
            0x00 => Ok(None),
            0x01 => Ok(Some(Command::Root { out: second })),
            _ => Err(UnknownCommand),
        };
        assert_eq!(rt; decode(&[first, second]), expected, "{}", pair);
    }
}
