// What a table says, on examples.
#![tactic(auto)]

#[cfg(test)]
mod tests {
    use docks::{TableError, TableFault, any_runs, best_dock, count_docks, least_time, read_table};
    use std::test::Fail;

    // How many docks a text has, or its first fault.
    fn docks_of(text: &[u8]) -> Result<usize, TableError> {
        Ok(read_table(text)?.len())
    }

    fn at(line: usize, fault: TableFault) -> Result<usize, TableError> {
        Err(TableError { line, fault })
    }

    #[test]
    fn good_tables(rt: HostRuntime) {
        assert_eq!(rt; docks_of(b""), Ok(0));
        assert_eq!(rt; docks_of(b"a 1 2"), Ok(1));
        assert_eq!(rt; docks_of(b"a 1 2\n"), Ok(1));
        assert_eq!(rt;
            docks_of(b"Jena_2 0 -\nKiel-Nord-123456 4294967294 1\n"),
            Ok(2)
        );
    }

    #[test]
    fn faults_of_form(rt: HostRuntime) {
        assert_eq!(rt; docks_of(b"a 1 2\n\n"), at(2, TableFault::Fields));
        assert_eq!(rt; docks_of(b"a 1\nb 1 2 3\n"), at(1, TableFault::Fields));
        assert_eq!(rt; docks_of(b"a 1 2\nb 1 2 3\n"), at(2, TableFault::Fields));
        assert_eq!(rt; docks_of(b" 1 2\n"), at(1, TableFault::Name));
        assert_eq!(rt; docks_of(b"a+b 1 2\n"), at(1, TableFault::Name));
        assert_eq!(rt;
            docks_of(b"a234567890123456x 1 2\n"),
            at(1, TableFault::Name)
        );
    }

    #[test]
    fn faults_of_times(rt: HostRuntime) {
        assert_eq!(rt; docks_of(b"a 1 2\r\n"), at(1, TableFault::Number));
        assert_eq!(rt; docks_of(b"a 01 2\n"), at(1, TableFault::Number));
        assert_eq!(rt; docks_of(b"a 1 --\n"), at(1, TableFault::Number));
        assert_eq!(rt; docks_of(b"a 4294967295 x\n"), at(1, TableFault::TooLarge));
        assert_eq!(rt;
            docks_of(b"a - 99999999999999999999999\n"),
            at(1, TableFault::TooLarge)
        );
    }

    #[test]
    fn answers(rt: HostRuntime) -> Result<(), Fail> {
        let table = read_table(b"a - 1\nb 20 21\nc 4294967294 1\nd 18 23\n")?;
        assert_eq!(rt; least_time(&table).value, 41);
        assert_eq!(rt; best_dock(&table), Some(1));
        assert_eq!(rt; count_docks(&table).value, 3);
        assert!(rt; any_runs(&table));
        let none = read_table(b"a - 1\n")?;
        assert_eq!(rt; best_dock(&none), None);
        assert!(rt; !any_runs(&none));
        Ok(())
    }

    #[test]
    fn names_by_their_texts(rt: HostRuntime) -> Result<(), Fail> {
        let table = read_table(b"ab 1 2\nac 1 2\nab 3 4\na 1 2\n")?;
        let [ab, ac, again, a] = table.docks() else {
            return Err(Fail::new("not four docks"));
        };
        assert!(rt; ab.name == again.name);
        assert!(rt; ab.name != ac.name);
        assert!(rt; ab.name != a.name);
        Ok(())
    }

    #[test]
    fn limit(rt: HostRuntime) -> Result<(), Fail> {
        let mut text = Vec::new(rt.alloc());
        for _ in 0..64 {
            text.extend_from_slice(b"a 1 1\n")?;
        }
        assert_eq!(rt; docks_of(text.as_slice()), Ok(64));
        text.extend_from_slice(b"a 1\n")?;
        assert_eq!(rt; docks_of(text.as_slice()), at(65, TableFault::TooMany));
        Ok(())
    }
}
