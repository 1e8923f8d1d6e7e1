// SCAN over dense and compressed levels on small tapes: with exactly enough words, and with one too few.
#![tactic(auto)]

#[cfg(test)]
mod tests {
    use formats::{Compressed, Dense, LevelSize};
    use levels::{StoredLevel, Two};
    use scanning::scan::scan;
    use tapes::part::Part;

    const S0: u32 = 0x8000_0000;

    const S1: u32 = 0x8000_0001;

    const N: u32 = 0x8000_00FE;

    const D: u32 = 0x8000_00FF;

    // [1, none] over two fibers of two
    #[test]
    fn dense(rt: HostRuntime) {
        let size = LevelSize {
            extent: 2,
            fibers: 2,
            entries: 4,
        };
        let level = StoredLevel {
            number: 0,
            size,
            words: &[],
        };
        let refs = Part { from: 0, to: 4 };
        let before = [1, N, S0, D, 7, 7, 7, 7, 7, 7, 7, 7, 7, 7, 7, 7];
        let mut words = before;
        assert_eq!(rt;
            scan::<Two<Dense, Compressed>>(&mut words, 5, refs, level),
            None
        );
        assert_eq!(rt; words, before);
        assert_eq!(rt;
            scan::<Two<Dense, Compressed>>(&mut words, 4, refs, level),
            Some((6, 6))
        );
        assert_eq!(rt;
            words,
            [1, N, S0, D, 0, 1, S0, S0, S1, D, 2, 3, S0, S0, S1, D]
        );
    }

    // [1, 9] over [2] and [0, 3]: there is no fiber 9
    #[test]
    fn compressed(rt: HostRuntime) {
        let size = LevelSize {
            extent: 4,
            fibers: 2,
            entries: 3,
        };
        let level = StoredLevel {
            number: 1,
            size,
            words: &[0, 1, 3, 2, 0, 3],
        };
        let refs = Part { from: 0, to: 4 };
        let mut words = [1, 9, S0, D, 7, 7, 7, 7, 7, 7, 7, 7, 7, 7, 7, 7, 8];
        assert_eq!(rt;
            scan::<Two<Dense, Compressed>>(&mut words, 4, refs, level),
            Some((6, 6))
        );
        assert_eq!(rt;
            words,
            [1, 9, S0, D, 0, 3, S0, S0, S1, D, 1, 2, S0, S0, S1, D, 8]
        );
    }
}
