// Tests of the bytes of commands.
#![tactic(auto)]

#[cfg(test)]
mod tests {
    use commands::{Command, DepthStreams, KeyDepths, UnknownCommand, decode};

    #[test]
    fn one_byte(rt: HostRuntime) {
        for first in 0..=255u8 {
            let expected = if first == 0 {
                Ok(None)
            } else {
                Err(UnknownCommand)
            };
            assert_eq!(rt; decode(&[first]), expected);
        }
        assert_eq!(rt; decode(&[]), Err(UnknownCommand));
    }

    #[test]
    fn two_bytes(rt: HostRuntime) {
        for first in 0..=255u8 {
            for second in 0..=255u8 {
                let expected = match first {
                    0 => Ok(None),
                    1 => Ok(Some(Command::Root { out: second })),
                    _ => Err(UnknownCommand),
                };
                assert_eq!(rt; decode(&[first, second]), expected);
            }
        }
    }

    #[test]
    fn worked_commands(rt: HostRuntime) {
        let scan = Command::Scan {
            tensor: 1,
            level: 0,
            references: 1,
            coordinates_out: 4,
            references_out: 5,
        };
        assert_eq!(rt;
            decode(&[0x02, 0x01, 0x00, 0x01, 0x04, 0x05, 0x03]),
            Ok(Some(scan))
        );
        let write = Command::Write {
            depth: 0,
            values: 12,
            coordinates: DepthStreams {
                bytes: [0xFF, 0xFF, 0xFF, 0xFF],
            },
            keys: KeyDepths { bytes: [0, 0, 0] },
        };
        let bytes = [0x0B, 0x00, 0x0C, 0xFF, 0xFF, 0xFF, 0xFF, 0x00, 0x00, 0x00];
        let mut area = [0u8; 10];
        assert_eq!(rt; write.encode(&mut area[0..9]), None);
        assert_eq!(rt; area, [0u8; 10]);
        assert_eq!(rt; write.encode(&mut area), Some(10));
        assert_eq!(rt; area, bytes);
        assert_eq!(rt; write.name(), "WRITE");
        assert_eq!(rt; decode(&bytes[0..9]), Err(UnknownCommand));
        assert_eq!(rt; decode(&area), Ok(Some(write)));
    }
}

#[cfg(test)]
mod short;
#[cfg(test)]
mod worked;
