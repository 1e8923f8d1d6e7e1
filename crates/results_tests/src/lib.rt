// Tests of the result table: what is added comes back in order, added up and without zeros.
#![tactic(auto)]

#[cfg(test)]
mod tests {
    use results::{ResultKey, add, copy_keys, enter, find, nth_nonzero};
    use semiring::Count;
    use std::test::Fail;

    const NO_KEY: ResultKey = ResultKey { parts: [0; 3] };

    fn key(first: u32, second: u32) -> ResultKey {
        ResultKey {
            parts: [first, second, 0],
        }
    }

    // Keys come in any order, and one comes twice: its values are added, here to a zero, which is not listed.
    #[test]
    fn adds_in_order(rt: HostRuntime) -> Result<(), Fail> {
        let mut keys = [NO_KEY; 3];
        let mut values = [0u32; 3];
        let n = add(&mut keys, &mut values, 0, key(2, 0), Count::new(5)).ok_or("full")?;
        let n = add(&mut keys, &mut values, n, key(1, 7), Count::new(1)).ok_or("full")?;
        let n = add(&mut keys, &mut values, n, key(1, 3), Count::new(4)).ok_or("full")?;
        let n = add(&mut keys, &mut values, n, key(1, 7), Count::new(u32::MAX)).ok_or("full")?;
        assert!(rt; n == 3);
        let Some(first) = nth_nonzero::<Count>(&keys, &values, n, 0) else {
            return Err(Fail::new("none"));
        };
        assert!(rt; first.0 == key(1, 3) && first.1.value == 4);
        let Some(second) = nth_nonzero::<Count>(&keys, &values, n, 1) else {
            return Err(Fail::new("none"));
        };
        assert!(rt; second.0 == key(2, 0) && second.1.value == 5);
        assert!(rt; nth_nonzero::<Count>(&keys, &values, n, 2).is_none());
        Ok(())
    }

    // A full table takes a key that it has, and refuses a new one.
    #[test]
    fn refuses_when_full(rt: HostRuntime) -> Result<(), Fail> {
        let mut keys = [NO_KEY; 1];
        let mut values = [0u32; 1];
        let n = add(&mut keys, &mut values, 0, key(4, 4), Count::new(1)).ok_or("full")?;
        assert!(rt; add(&mut keys, &mut values, n, key(4, 5), Count::new(1)).is_none());
        assert!(rt; values[0] == 1);
        let n = add(&mut keys, &mut values, n, key(4, 4), Count::new(2)).ok_or("full")?;
        assert!(rt; n == 1 && values[0] == 3);
        Ok(())
    }

    // Keys are counted in a copy, and the row that they were copied from stays.
    #[test]
    fn counts_new_keys(rt: HostRuntime) -> Result<(), Fail> {
        let keys = [key(1, 1), key(3, 0)];
        let mut scratch = [NO_KEY; 3];
        let n = copy_keys(&keys, 2, &mut scratch).ok_or("short")?;
        let n = enter(&mut scratch, n, key(3, 0)).ok_or("full")?;
        let n = enter(&mut scratch, n, key(2, 9)).ok_or("full")?;
        assert!(rt; n == 3);
        assert!(rt; enter(&mut scratch, n, key(0, 0)).is_none());
        assert_eq!(rt; find(&scratch, &key(2, 9)), Ok(1));
        assert_eq!(rt; find(&scratch, &key(2, 8)), Err(1));
        Ok(())
    }

    // Where the keys do not ascend, the search ends at the first equal key that it meets, and `add` adds there.
    #[test]
    fn finds_where_keys_do_not_ascend(rt: HostRuntime) -> Result<(), Fail> {
        let zeros = [NO_KEY; 3];
        assert_eq!(rt; find(&zeros, &NO_KEY), Ok(1));
        let mut keys = [NO_KEY, key(1, 0), NO_KEY];
        assert_eq!(rt; find(&keys, &key(1, 0)), Ok(1));
        let mut values = [1u32, 2, 3];
        let n = add(&mut keys, &mut values, 3, key(1, 0), Count::new(10)).ok_or("full")?;
        assert!(rt; n == 3 && values[0] == 1 && values[1] == 12 && values[2] == 3);
        Ok(())
    }
}
