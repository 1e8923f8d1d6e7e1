// Lines with the rule that each breaks first and the place; 0 and 0 where one is accepted.
#![tactic(auto)]

#[cfg(test)]
mod tests {
    use lines::{Extents, Slots, read_line};
    use std::process::Abort;
    use std::test::Fail;

    fn filled(rank: usize, a: u32, b: u32, c: u32) -> Option<Extents> {
        Some(Extents {
            rank,
            extents: [a, b, c],
        })
    }

    // A is 3 by 4, B 4 by 5, C 3, D a scalar, E 3 by 4 by 5, F 4, G 3 by 3, and H is empty.
    fn slots() -> Slots {
        Slots {
            tensors: [
                filled(2, 3, 4, 0),
                filled(2, 4, 5, 0),
                filled(1, 3, 0, 0),
                filled(0, 0, 0, 0),
                filled(3, 3, 4, 5),
                filled(1, 4, 0, 0),
                filled(2, 3, 3, 0),
                None,
            ],
        }
    }

    fn reads(rt: &impl Abort, text: &[u8], number: u8, place: usize) -> Result<(), Fail> {
        match read_line(text, &slots()) {
            Ok(_) => {
                assert_eq!(rt; (number, place), (0, 0));
                Ok(())
            },
            Err(fault) => {
                assert_eq!(rt; (fault.rule.number(), fault.place), (number, place));
                Ok(())
            },
        }
    }

    #[test]
    fn accepted(rt: HostRuntime) -> Result<(), Fail> {
        reads(&rt, b"R()=D();", 0, 0)?;
        reads(&rt, b"R(i)=C(i);i", 0, 0)?;
        reads(&rt, b"R(j,i)=A(i,j);i,j", 0, 0)?;
        reads(&rt, b"R()=A(i,j)*B(j,k);i,j,k", 0, 0)?;
        reads(&rt, b"R()=C(i)+D();i", 0, 0)?;
        reads(&rt, b"R()=((((D()))));", 0, 0)?;
        reads(&rt, b"R()=D()*D()*D()*D()*D()*D()*D()*D();", 0, 0)
    }

    #[test]
    fn grammar(rt: HostRuntime) -> Result<(), Fail> {
        reads(&rt, b"", 6, 0)?;
        reads(&rt, b"X", 6, 0)?;
        reads(&rt, b"R", 6, 1)?;
        reads(&rt, b"R(I)=C(i);i", 6, 2)?;
        reads(&rt, b"R(i,)=C(i);i", 6, 4)?;
        reads(&rt, b"R()=I();", 6, 4)?;
        reads(&rt, b"R(i)=;i", 6, 5)?;
        reads(&rt, b"R(i)=C(i", 6, 8)?;
        reads(&rt, b"R(i)=C(i));i", 6, 9)?;
        reads(&rt, b"R(i)=C(i)+;i", 6, 10)?;
        reads(&rt, b"R()=D();i,", 6, 10)
    }

    #[test]
    fn limits(rt: HostRuntime) -> Result<(), Fail> {
        reads(&rt, b"R()=(((((D())))));", 7, 8)?;
        reads(&rt, b"R()=D()*D()*D()*D()*D()*D()*D()*D()*D();", 7, 36)?;
        reads(&rt, b"R(a,b,c)=E(a,b,c)*A(d,e);a,b,c,d,e", 7, 22)?;
        reads(&rt, b"R()=D();a,b,c,d,e", 7, 16)?;
        reads(&rt, b"R(a,b,c,d)=D();", 7, 8)?;
        reads(&rt, b"R(a,a,a,a)=D();", 7, 8)?;
        reads(&rt, b"R()=E(a,b,c,d);", 7, 12)?;
        reads(&rt, b"R()=(((((E(a,b,c,d))))));", 7, 8)
    }

    #[test]
    fn accesses(rt: HostRuntime) -> Result<(), Fail> {
        reads(&rt, b"R(i,i)=C(i);i", 8, 0)?;
        reads(&rt, b"R()=H();", 8, 4)?;
        reads(&rt, b"R()=A();", 8, 4)?;
        reads(&rt, b"R(i)=A(i);i", 8, 5)?;
        reads(&rt, b"R()=G(i,i);i", 8, 4)?;
        reads(&rt, b"R(i)=C(i)*H(i);i", 8, 10)
    }

    #[test]
    fn evenness(rt: HostRuntime) -> Result<(), Fail> {
        reads(&rt, b"R(i)=C(i)*(D()+C(i));i", 9, 14)?;
        reads(&rt, b"R(i)=D();", 9, 5)?;
        reads(&rt, b"R(i)=C(i)*(C(i)+G(i,j)*F(k));i,j,k", 9, 15)?;
        reads(&rt, b"R(i)=C(i)+D();i", 9, 10)?;
        reads(&rt, b"R()=(C(i)+F(j));i,j", 9, 9)?;
        reads(&rt, b"R(j)=(C(i)+C(i))+F(j);i,j", 9, 5)?;
        reads(&rt, b"R()=(C(i)+D()*C(i));i", 0, 0)
    }

    #[test]
    fn extents(rt: HostRuntime) -> Result<(), Fail> {
        reads(&rt, b"R()=C(i)*F(i);i", 10, 11)?;
        reads(&rt, b"R()=C(i)+F(i);i", 10, 11)?;
        reads(&rt, b"R()=A(i,j)*B(i,k);i,j,k", 10, 13)
    }

    #[test]
    fn orders(rt: HostRuntime) -> Result<(), Fail> {
        reads(&rt, b"R()=C(i);", 11, 9)?;
        reads(&rt, b"R()=C(i);j", 11, 9)?;
        reads(&rt, b"R()=C(i);i,i", 11, 11)?;
        reads(&rt, b"R()=C(i);i,j", 11, 11)?;
        reads(&rt, b"R()=D();i", 11, 8)?;
        reads(&rt, b"R()=A(i,j);j,i", 12, 4)?;
        reads(&rt, b"R()=C(i)*A(i,j);j,i", 12, 9)
    }

    #[test]
    fn lengths(rt: HostRuntime) -> Result<(), Fail> {
        // The loop order i,i,.. fills the line.
        let mut text = [b'i'; 257];
        for k in 0..128 {
            text[2 * k] = b',';
        }
        let head = b"R(i)=D();i";
        for k in 0..10 {
            text[k] = head[k];
        }
        reads(&rt, &text[0..256], 9, 5)?;
        reads(&rt, &text, 6, 256)?;
        text[0] = b'x';
        reads(&rt, &text, 6, 256)
    }

    #[test]
    fn brackets(rt: HostRuntime) -> Result<(), Fail> {
        let mut text = [b'('; 248];
        for k in 0..248 {
            if k > 126 {
                text[k] = b')';
            }
        }
        let head = b"R()=";
        for k in 0..4 {
            text[k] = head[k];
        }
        text[124] = b'D';
        text[125] = b'(';
        text[247] = b';';
        text[126] = b')';
        reads(&rt, &text, 7, 8)?;
        reads(&rt, &text[0..247], 6, 247)
    }
}
